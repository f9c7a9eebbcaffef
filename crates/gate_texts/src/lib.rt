// Gate texts from their bytes to their least setting.
#![tactic(auto)]

ghost use Rattle.std.specs.Prelude.{◌≡◌, length};
ghost use Rattle.aiger.specs.Aag.{read_aag};
ghost use Rattle.gate_texts.specs.Answer.{text_least, network_least};
ghost use Rattle.sheets.specs.Answers.{told, written};

use aiger::Gate;
use aiger_load::load;
use faults::SheetFault;
use gates::GateSolver;
use sheets::Sheet;
use solver::ContactCount;
use witnesses::WitnessCache;

// Writes the literals of the earliest setting of the inputs at which the output is 1.
fn least_of_gates(
    gates: &[Gate],
    inputs: usize,
    output: u16,
    out: &mut [i8],
) -> Result<(), SheetFault>
    ensures answer { result ≡ told (network_least inputs gates.now output (length out.old)) }
    ensures buffer { out.new ≡ written (network_least inputs gates.now output (length out.old)) out.old }
{
    let count = ContactCount::new(inputs)?;
    let solver = GateSolver::new(gates, output, count);
    let cache = WitnessCache::new(solver);
    let mut sheet = Sheet::open(cache, 1);
    sheet.least(out)
}

// Loads the text for n contacts into the store, and writes the literals of the earliest setting that it allows.
pub fn least_of_text(
    text: &[u8],
    n: usize,
    store: &mut [Gate],
    out: &mut [i8],
) -> Result<(), SheetFault>
    ensures answer { result ≡ told (text_least n (length store.old) (length out.old) (read_aag text.now)) }
    ensures buffer { out.new ≡ written (text_least n (length store.old) (length out.old) (read_aag text.now)) out.old }
{
    let network = load(text, n, store)?;
    let count = network.count;
    least_of_gates(&store[0..count], network.inputs, network.output, out)
}
