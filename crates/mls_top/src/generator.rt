//! The generated text: a module whose bindings follow from a seed.
ghost use Rattle.std.specs.Prelude.{◌≡◌, ◌<◌, ◌%◌, ◌==◌, if◌then◌else◌, string_bytes, IfOk, OnOk};
ghost use Rattle.mls_top.specs.Generator.{next, draw, label, maker, made, adder, caller, line_from, generated};

use mls_base::memory::Memory;
use std::alloc::Global;

/// The text of a module with `count` bindings, one on each line, whose numbers are drawn from a pseudo-random sequence
/// that begins with the seed.
///
/// # Errors
///
/// Memory, where it is wanting.
pub fn generate(alloc: Global, seed: u32, count: usize) -> Result<Vec<u8>, Memory>
    ensures { IfOk result (λ text. text.items ≡ generated seed count) }
{
    let mut draws = Draws { state: seed };
    let mut text = Vec::new(alloc);
    for i in 0..count {
        text.extend_from_slice(line(alloc, &mut draws, i)?.as_bytes())?;
    }
    Ok(text)
}

// A pseudo-random sequence.
#[derive(Drop)]
struct Draws {
    state: u32,
}

impl Draws {
    // Draws a number below `bound`.
    fn below(&mut self, bound: u64) -> u64
        requires { 0 < bound }
        ensures state { self.new.state ≡ next self.old.state }
        ensures number { result ≡ draw self.old.state bound }
    {
        self.state = ((u64::from(self.state) * 1_103_515_245 + 12_345) % 2_147_483_648) as u32;
        u64::from(self.state) / 65_536 % bound
    }
}

// The line of binding `i`.
fn line(alloc: Global, draws: &mut Draws, i: usize) -> Result<String, Memory>
    ensures line { IfOk result (λ line. string_bytes line ≡ line_from draws.old.state i) }
    ensures state { OnOk result (draws.new.state
        ≡ (if i % 4 == 0 then next draws.old.state else next (next draws.old.state))) }
{
    let earlier = i as u64 / 4 + 1;
    match i % 4 {
        0 => maker(alloc, i, draws.below(1000)),
        1 => {
            let j = 4 * draws.below(earlier);
            made(alloc, i, j, draws.below(1000))
        }
        2 => {
            let label = label(draws.below(3));
            adder(alloc, i, label, 4 * draws.below(earlier) + 1)
        }
        _ => {
            let n = draws.below(1000);
            caller(alloc, i, n, 4 * draws.below(earlier) + 2)
        }
    }
}

// A function that makes a record.
fn maker(alloc: Global, i: usize, n: u64) -> Result<String, Memory>
    ensures { IfOk result (λ line. string_bytes line ≡ maker i n) }
{
    Ok(format!(in alloc; "let v{i} = fun x -> fun y -> {{a = x, b = y, c = {n}}}\n")?)
}

// A record, made by the function `j`.
fn made(alloc: Global, i: usize, j: u64, n: u64) -> Result<String, Memory>
    ensures { IfOk result (λ line. string_bytes line ≡ made i j n) }
{
    Ok(format!(in alloc; "let v{i} = (v{j} {n}) true\n")?)
}

// The label of this number.
fn label(number: u64) -> &'static str
    ensures { result.now ≡ label number }
{
    match number {
        0 => "a",
        1 => "b",
        _ => "c",
    }
}

// A function that adds a field of its argument to one of the record `j`.
fn adder(alloc: Global, i: usize, label: &str, j: u64) -> Result<String, Memory>
    ensures { IfOk result (λ line. string_bytes line ≡ adder i label.now j) }
{
    Ok(format!(in alloc; "let v{i} = fun r -> r.{label} + v{j}.c\n")?)
}

// A function that calls itself, and below a number the function `j`.
fn caller(alloc: Global, i: usize, n: u64, j: u64) -> Result<String, Memory>
    ensures { IfOk result (λ line. string_bytes line ≡ caller i n j) }
{
    Ok(format!(in alloc;
        "let rec v{i} = fun n -> if n < {n} then v{j} {{a = n, b = n, c = n}} else v{i} (n - 1)\n"
    )?)
}
