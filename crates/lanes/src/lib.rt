// The values of a network at 64 settings at once. Setting j has lane j: in each word, bit j is the value there.
#![tactic(auto)]

ghost use Rattle.std.specs.Prelude.{◌≡◌, ℕ, ◌+◌, ◌<◌, ◌≤◌, Bool, true, false, map, length};
ghost use Rattle.std.specs.List.{find, range_with_len};
ghost use Rattle.tables.specs.Tables.{items};
ghost use Rattle.literals.specs.Bits.{bit};
ghost use Rattle.search.specs.Assignments.{undecided, filled};
ghost use Rattle.rules.specs.Rules.{as_rule};
ghost use Rattle.lanes.specs.Words.{all_lanes, pattern, input_word, next_rank, input_words, output_word, literals_word, met_word, all_met_word, good_word, FirstLane, with_bit, Tried, circuit_good};

use literals::{LiteralSet, has_bit};
use networks::Circuit;
use networks::evaluation::{follow, value_of};
use rules::rule_of;
use search::Assignment;
use tables::table::Table;

// The lanes in which a free input is closed: the first free input alternates, the next one by twos, and so on up to the sixth.
fn pattern(rank: u8) -> u64
    ensures lanes { result ≡ pattern rank }
{
    match rank {
        0 => 0xaaaa_aaaa_aaaa_aaaa,
        1 => 0xcccc_cccc_cccc_cccc,
        2 => 0xf0f0_f0f0_f0f0_f0f0,
        3 => 0xff00_ff00_ff00_ff00,
        4 => 0xffff_0000_ffff_0000,
        5 => 0xffff_ffff_0000_0000,
        _ => 0,
    }
}

// The lanes of an input: all, none, or where it is undecided half of them.
fn input_word(assignment: Assignment, index: u8, rank: u8) -> u64
    ensures lanes { result ≡ input_word assignment index rank }
{
    if has_bit(assignment.closed, index as usize) {
        0xffff_ffff_ffff_ffff
    } else if has_bit(assignment.opened, index as usize) {
        0
    } else {
        pattern(rank)
    }
}

// How many inputs are undecided up to an index, from how many are before it.
fn next_rank(assignment: Assignment, index: u8, rank: u8) -> u8
    requires few { rank < 255 }
    ensures rank { result ≡ next_rank assignment index rank }
{
    if assignment.has_decided(index) {
        rank
    } else {
        rank + 1
    }
}

// How many inputs are undecided. The same step counts them below, where each input's word goes by it, and one proof of that step serves both.
pub fn count_undecided(inputs: u8, assignment: Assignment) -> u8
    ensures count { result ≡ undecided inputs assignment }
{
    let mut rank = 0;
    for index in 0..inputs {
        rank = next_rank(assignment, index, rank);
    }
    rank
}

// The lanes of each input. No iterator form is plainer: each index names an input of the assignment, and the rank goes with it.
fn input_words(circuit: Circuit<'_>, assignment: Assignment) -> Table<u64, 32>
    ensures words { items result ≡ input_words circuit.entry.inputs assignment }
{
    let mut words = Table::new(0);
    let mut rank = 0;
    for index in 0..circuit.inputs {
        let _ = words.push(input_word(assignment, index, rank));
        rank = next_rank(assignment, index, rank);
    }
    words
}

// The lanes in which the output is 1, from the words of the inputs.
#[tactic(auto, using(crate::proofs::Steps::few_items))]
fn output_word(circuit: Circuit<'_>, inputs: &Table<u64, 32>) -> u64
    ensures lanes { result ≡ output_word circuit.entry.gates.now circuit.entry.output (items inputs.now) }
{
    let mut words = Table::new(0);
    let _ = words.push(0);
    let _ = words.extend(inputs.as_slice());
    follow(&mut words, circuit.gates);
    value_of(words.as_slice(), circuit.output)
}

// The lanes in which an input agrees with a literal of the rule.
fn literals_word(rule: LiteralSet, index: usize, word: u64) -> u64
    ensures lanes { result ≡ literals_word rule index word }
{
    let closed = if rule.has(index, true) { word } else { 0 };
    let opened = if rule.has(index, false) {
        word ^ 0xffff_ffff_ffff_ffff
    } else {
        0
    };
    closed | opened
}

// The lanes in which a rule is met.
fn met_word(inputs: &[u64], rule: LiteralSet) -> u64
    ensures lanes { result ≡ met_word 0 0 rule inputs.now }
{
    let mut met = 0;
    for (index, word) in inputs.iter().enumerate() {
        met |= literals_word(rule, index, *word);
    }
    met
}

// The lanes in which every rule is met, or no bar covers.
fn all_met_word(inputs: &[u64], sets: &[LiteralSet], as_bars: bool) -> u64
    ensures lanes { result ≡ all_met_word all_lanes (map (as_rule as_bars) sets.now) inputs.now }
{
    let mut all = 0xffff_ffff_ffff_ffff;
    for set in sets {
        all &= met_word(inputs, rule_of(*set, as_bars));
    }
    all
}

// The lanes in which the output is 1, every rule is met and no bar covers.
fn good_word(
    circuit: Circuit<'_>,
    rules: &[LiteralSet],
    bars: &[LiteralSet],
    inputs: &Table<u64, 32>,
) -> u64
    ensures lanes { result ≡ good_word circuit.entry rules.now bars.now (items inputs.now) }
{
    let words = inputs.as_slice();
    output_word(circuit, inputs)
        & (all_met_word(words, rules, false) & all_met_word(words, bars, true))
}

// Whether a lane is set.
fn has_lane(word: u64, lane: u8) -> bool
    ensures set { result ≡ bit word lane }
{
    has_bit(word, lane as usize)
}

// The lowest lane that is set, as a search over the lanes finds it.
fn lowest_lane(word: u64) -> Option<u8>
    ensures found { result ≡ find (λ k. bit word k) (range_with_len 0 64) }
{
    (0..64u8).find(|lane| has_lane(word, *lane))
}

// The first lane that is set.
fn first_lane(word: u64) -> Option<u8>
    ensures first { FirstLane word result }
{
    if word == 0 {
        return None;
    }
    lowest_lane(word)
}

// A mask with a bit more, if that is set.
fn with_bit(mask: u64, index: usize, set: bool) -> u64
    requires few { index < 64 }
    ensures mask { result ≡ with_bit mask index set }
{
    if set { mask | (1 << index) } else { mask }
}

// The setting of a lane.
#[tactic(auto, using(crate::proofs::Steps::few_items))]
fn lane_setting(inputs: &Table<u64, 32>, lane: u8) -> Assignment
    ensures setting { filled (length (items inputs.now)) result ≡ map (λ w. bit w lane) (items inputs.now) }
{
    let words = inputs.as_slice();
    let mut closed = 0;
    for (index, word) in words.iter().enumerate() {
        closed = with_bit(closed, index, has_lane(*word, lane));
    }
    Assignment { closed, opened: 0 }
}

// Tries all settings that agree with an assignment which leaves at most six inputs undecided.
pub fn try_all(
    circuit: Circuit<'_>,
    rules: &[LiteralSet],
    bars: &[LiteralSet],
    assignment: Assignment,
) -> Option<Assignment>
    requires few { undecided circuit.inputs assignment ≤ 6 }
    ensures tried { Tried circuit.entry.inputs (circuit_good circuit.entry rules.now bars.now) assignment result }
{
    let words = input_words(circuit, assignment);
    let lane = first_lane(good_word(circuit, rules, bars, &words))?;
    Some(lane_setting(&words, lane))
}
