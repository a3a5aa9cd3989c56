// What a part of a block is: it has a fixed number of bytes, is put into a buffer from a place on, and is taken out of bytes, which may be
// any. Bytes and numbers are parts; an array of parts stands one behind the other.
ghost use Rattle.std.specs.Prelude.{◌≡◌, ◌+◌, ◌*◌, ◌≤◌, ℕ, List, [], ◌∷◌, length, get_or};
ghost use Rattle.laws.specs.Words.{digit, Puts};
ghost use Rattle.rules.specs.Records.{word};
ghost use Rattle.image.specs.Bytes.{little, long_word, all_bytes, all_from, option_bytes, option_from, says};

use std::array;

pub trait Part: Copy {
    // How many bytes it has, so that each part of a block stands at a place of its own.
    const SIZE: usize;

    ghost SIZE: { ℕ };

    // Its bytes, and the part that some bytes say from a place on.
    ghost as_bytes: { Self → List ℕ };

    ghost from_bytes: { List ℕ → ℕ → Self };

    // All other bytes stay as they are.
    fn put(self, bytes: &mut [u8], at: usize)
        requires { at + SIZE ≤ length bytes.old }
        ensures { Puts bytes.old at (as_bytes self) (at + SIZE) bytes.new };

    fn take(bytes: &[u8], at: usize) -> Self
        requires { at + SIZE ≤ length bytes.now }
        ensures { result ≡ from_bytes bytes.now at };
}

// The parts of an array, one behind the other. (Two functions, and no impl for arrays: that the size of one fits its type has no proof for any
// number of parts.)
pub fn put_all<T: Part, const N: usize>(bytes: &mut [u8], at: usize, parts: &[T; N])
    requires { at + T.SIZE * N ≤ length bytes.old }
    ensures { Puts bytes.old at (all_bytes T.as_bytes parts.now) (at + T.SIZE * N) bytes.new }
{
    for (i, part) in parts.iter().enumerate() {
        part.put(bytes, at + T::SIZE * i);
    }
}

pub fn take_all<T: Part, const N: usize>(bytes: &[u8], at: usize) -> [T; N]
    requires { at + T.SIZE * N ≤ length bytes.now }
    ensures { result ≡ all_from (T.from_bytes bytes.now) T.SIZE at N }
{
    array::from_fn(
        |i| -> T
            requires { at + T.SIZE * i + T.SIZE ≤ length bytes.now }
            ensures { result ≡ T.from_bytes bytes.entry.now (at + T.SIZE * i) }
        { T::take(bytes, at + T::SIZE * i) },
    )
}

// A byte that tells whether there is a part, and the part; `free` stands where there is none.
pub fn put_option<T: Part>(bytes: &mut [u8], at: usize, part: Option<T>, free: T)
    requires { at + (1 + T.SIZE) ≤ length bytes.old }
    ensures { Puts bytes.old at (option_bytes T.as_bytes free part) (at + (1 + T.SIZE)) bytes.new }
{
    part.is_some().put(bytes, at);
    part.unwrap_or(free).put(bytes, at + 1);
}

pub fn take_option<T: Part>(bytes: &[u8], at: usize) -> Option<T>
    requires { at + (1 + T.SIZE) ≤ length bytes.now }
    ensures { result ≡ option_from T.from_bytes bytes.now at }
{
    if bool::take(bytes, at) {
        Some(T::take(bytes, at + 1))
    } else {
        None
    }
}

impl Part for u8 {
    const SIZE: usize = 1;

    ghost SIZE = { 1 };

    ghost as_bytes = { λ n. n ∷ [] };

    ghost from_bytes = { λ s at. get_or s at 0 };

    fn put(self, bytes: &mut [u8], at: usize) {
        bytes[at] = self;
    }

    fn take(bytes: &[u8], at: usize) -> u8 {
        bytes[at]
    }
}

// A byte that is not 0 says yes.
impl Part for bool {
    const SIZE: usize = 1;

    ghost SIZE = { 1 };

    ghost as_bytes = { λ b. digit b ∷ [] };

    ghost from_bytes = { says };

    fn put(self, bytes: &mut [u8], at: usize) {
        bytes[at] = self as u8;
    }

    fn take(bytes: &[u8], at: usize) -> bool {
        bytes[at] != 0
    }
}

impl Part for u32 {
    const SIZE: usize = 4;

    ghost SIZE = { 4 };

    ghost as_bytes = { little 4 };

    ghost from_bytes = { word };

    fn put(self, bytes: &mut [u8], at: usize) {
        put_all(bytes, at, &self.to_le_bytes());
    }

    fn take(bytes: &[u8], at: usize) -> u32 {
        u32::from_le_bytes(take_all(bytes, at))
    }
}

impl Part for u64 {
    const SIZE: usize = 8;

    ghost SIZE = { 8 };

    ghost as_bytes = { little 8 };

    ghost from_bytes = { long_word };

    fn put(self, bytes: &mut [u8], at: usize) {
        put_all(bytes, at, &self.to_le_bytes());
    }

    fn take(bytes: &[u8], at: usize) -> u64 {
        u64::from_le_bytes(take_all(bytes, at))
    }
}

impl Part for usize {
    const SIZE: usize = 8;

    ghost SIZE = { 8 };

    ghost as_bytes = { little 8 };

    ghost from_bytes = { long_word };

    fn put(self, bytes: &mut [u8], at: usize) {
        (self as u64).put(bytes, at);
    }

    fn take(bytes: &[u8], at: usize) -> usize {
        u64::take(bytes, at) as usize
    }
}
