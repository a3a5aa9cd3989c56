// The library that the benchmark links: what `bench` times, over the C interface, with the same promise.
#![tactic(auto)]

ghost use Rattle.bench.specs.Sums.{call_by, Sums};

#[unsafe(no_mangle)]
pub extern "C" fn bench_calls(block: &[u8], kind: u8, reading: u32, task: u8, times: u32) -> u64
    ensures { Sums block.now (call_by kind reading task) times result }
{
    bench::bench_calls(block, kind, reading, task, times)
}

#[unsafe(no_mangle)]
pub extern "C" fn bench_inner(block: &[u8], kind: u8, reading: u32, task: u8, times: u32) -> u64
    ensures { Sums block.now (call_by kind reading task) times result }
{
    bench::bench_inner(block, kind, reading, task, times)
}
