// The clocks of a source for C: where does a sequence of inputs lead?
#![tactic(auto)]

ghost use Rattle.std.specs.Prelude.{◌≡◌, ◌%◌, length};
ghost use Rattle.nodes.specs.Ready.{Ready};
ghost use Rattle.clock_c.specs.Ran.{Ran, RunsTo};

use nodes::Tree;

// A byte as an input of six bits.
fn six_bits(x: u8) -> u32
    ensures { result ≡ x % 64 }
{
    u32::from(x) % 64
}

// The word after one clock for each input, from the start of a stored program.
fn run(tree: &Tree, n: u16, left: u16, word: u32, inputs: &[u8]) -> u32
    requires { Ready tree.now n left }
    ensures { RunsTo tree.now n left word inputs.now result }
{
    let mut s = clock::start(n, word);
    for &x in inputs {
        s = clock::step(tree, n, left, s, six_bits(x)).state;
    }
    s.word
}

// The word after one clock for each input, which counts modulo 64; 0 for a text that is refused.
#[unsafe(no_mangle)]
pub extern "C" fn windnadel_clocks(text: &[u8], inputs: &[u8]) -> u64
    ensures { Ran text.now inputs.now result }
{
    let mut work = [0u8; 32768];
    match source::read(text, &mut work) {
        Ok(p) => {
            let tree = source::tree(&work);
            u64::from(run(&tree, p.n, clock::FUEL, p.word, inputs))
        }
        Err(_) => 0,
    }
}
