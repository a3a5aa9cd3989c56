// A block as bytes, for those who keep it where no block can be kept: in the memory of a program in C or Rust, or in a flash that may be
// damaged. Of any bytes a block comes; if it is not whole, a call on it gives 15.
//
//     count              8 bytes
//     tasks              MOST of C, D, T            4 bytes each
//     rising             MOST deadlines             4
//     jobs               MOST + 1 of: active 1 (0: not), released 1 (0: never), time 8
//     running            2: whether one runs (0: nobody), and its task
//     first, last, next  MOST + 1 tasks each        1
//     map                8
//     clock              8
//     last reading       4
//
// Numbers are little-endian. save and load take a step for each byte. They are inner forms: their callers, as export, have tested the
// length.
#![tactic(auto)]

ghost use Rattle.std.specs.Prelude.{◌≡◌, ◌≤◌, length};
ghost use Rattle.laws.specs.Words.{written};
ghost use Rattle.image.specs.Bytes.{size, bytes_of, block_in};

use crate::part::{Part, put_all, take_all};
use jobs::{Job, Tasks};
use kernel::{Block, Now};
use ready::Ready;
use table::PLACES;

mod part; // what a part is: bytes, numbers, arrays
mod parts; // the parts of a block

// The places where its parts begin; the tasks stand at its front.
const JOBS: usize = Tasks::SIZE;

const READY: usize = JOBS + Job::SIZE * PLACES;

const NOW: usize = READY + Ready::SIZE;

// How many bytes a block has.
pub const BLOCK_BYTES: usize = NOW + Now::SIZE;

// Puts the block into the first BLOCK_BYTES of the buffer; the bytes behind them stay.
pub fn save(block: Block, bytes: &mut [u8])
    requires { size ≤ length bytes.old }
    ensures { bytes.new ≡ written (bytes_of block) bytes.old }
{
    block.tasks.put(bytes, 0);
    put_all(bytes, JOBS, &block.jobs);
    block.ready.put(bytes, READY);
    block.now.put(bytes, NOW);
}

// The block whose bytes these are.
pub fn load(bytes: &[u8]) -> Block
    requires { size ≤ length bytes.now }
    ensures { result ≡ block_in bytes.now }
{
    Block {
        tasks: Tasks::take(bytes, 0),
        jobs: take_all(bytes, JOBS),
        ready: Ready::take(bytes, READY),
        now: Now::take(bytes, NOW),
    }
}
