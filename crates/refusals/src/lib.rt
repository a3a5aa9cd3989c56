// "Numbers given back": the number of each refusal, in the one place where code says it. Each part that refuses has an enum with the cases
// that it can give; as `Refused` it names one of these, and is proved to give the rules' number. docs/refusals.txt says what each means.
#![tactic(auto)]

ghost use Rattle.std.specs.Prelude.{◌≡◌, IfOk, IfErr};
ghost use Rattle.rules.specs.Numbers.{Refusal, number_of, value_of, given};

// A refusal of one of the parts.
pub trait Refused {
    // Which of the rules' refusals it is.
    ghost means: { Self → Refusal };

    // "No."
    fn number(self) -> u8
        ensures { result ≡ number_of (means self) };

    // "With it": a task or an offset; 0 where there is neither.
    fn given(self) -> usize
        ensures { result ≡ given (value_of (means self)) };
}

// The number of an answer: 0 where nothing is refused.
pub fn number_in<T: Copy, R: Refused + Copy>(answer: Result<T, R>) -> u8
    ensures { IfOk answer (λ x. result ≡ 0) × IfErr answer (λ r. result ≡ number_of (R.means r)) }
{
    match answer {
        Ok(_) => 0,
        Err(refusal) => refusal.number(),
    }
}

// What is given with it: 0 where nothing is refused.
pub fn given_with<T: Copy, R: Refused + Copy>(answer: Result<T, R>) -> usize
    ensures { IfOk answer (λ x. result ≡ 0) × IfErr answer (λ r. result ≡ given (value_of (R.means r))) }
{
    let Err(refusal) = answer else {
        return 0;
    };
    refusal.given()
}

// Numbers, as they are printed, and given over the C interface; inside, a refusal is a case of an enum.
pub const TABLE_SIZE: u8 = 1;

pub const OUT_OF_RANGE: u8 = 2;

pub const OUT_OF_ORDER: u8 = 3;

pub const OVERLOAD: u8 = 4;

pub const COUNTER_WENT_BACK: u8 = 5;

pub const CLOCK_FULL: u8 = 6;

pub const NO_SUCH_TASK: u8 = 7;

pub const TASK_ACTIVE: u8 = 8;

pub const TOO_SOON: u8 = 9;

pub const NOT_RUNNING: u8 = 10;

pub const BUFFER_TOO_SHORT: u8 = 11;

pub const UNREADABLE: u8 = 12;

pub const TASK_BEHIND_EVENT: u8 = 13;

pub const INPUT_TOO_LONG: u8 = 14;

pub const NOT_WHOLE: u8 = 15;
