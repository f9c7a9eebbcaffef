// What a list of rules says of an assignment: the first rule that forces a literal or has failed, and a variable that is worth a try.
#![tactic(auto)]

ghost use Rattle.std.specs.Prelude.{◌≡◌, Bool, true, false, not, ◌||◌, map};
ghost use Rattle.std.specs.List.{find, range_with_len};
ghost use Rattle.search.specs.Assignments.{decided};
ghost use Rattle.rules.specs.Rules.{as_rule, masked, is_met, undecided_in, several, is_quiet, wanted_at, scanned, scanned_both, found_by, any_unmet, has_unmet, Choice};

use literals::LiteralSet;
use search::{Assignment, Found, mask_below};

// What a rule says that forces a literal or has failed. A variable goes by its index, from 0.
#[derive(Clone, Copy)]
pub enum Finding {
    // the rule has no literal met and none undecided
    Failed,
    // the rule has a single undecided literal and none met: the value that it wants
    Forced { variable: u8, closed: bool },
}

// What that says of an assignment, where every good setting meets the rule.
impl From<Finding> for Found {
    ghost from_gives = { λ f r. r ≡ found_by f };

    fn from(finding: Finding) -> Self {
        match finding {
            Finding::Failed => Found::Conflict,
            Finding::Forced { variable, closed } => Found::Forced { variable, closed },
        }
    }
}

// A set of literals as a rule; a bar as the rule of the opposite ones.
pub fn rule_of(set: LiteralSet, as_bar: bool) -> LiteralSet
    ensures rule { result ≡ as_rule as_bar set }
{
    if as_bar {
        LiteralSet {
            closed: set.opened,
            opened: set.closed,
        }
    } else {
        set
    }
}

// The literals of a rule on the variables of a mask.
fn masked(rule: LiteralSet, mask: u64) -> LiteralSet
    ensures masked { result ≡ masked mask rule }
{
    LiteralSet {
        closed: rule.closed & mask,
        opened: rule.opened & mask,
    }
}

// Whether a literal of the rule is met, or two of its literals are opposite.
fn is_met(rule: LiteralSet, assignment: Assignment) -> bool
    ensures met { result ≡ is_met rule assignment }
{
    (rule.closed & assignment.closed)
        | (rule.opened & assignment.opened)
        | (rule.closed & rule.opened)
        != 0
}

// The mask of the rule's undecided variables.
fn undecided_in(rule: LiteralSet, assignment: Assignment) -> u64
    ensures mask { result ≡ undecided_in rule assignment }
{
    let variables = rule.closed | rule.opened;
    variables ^ (variables & (assignment.closed | assignment.opened))
}

// Whether a mask has two variables or more.
fn has_several(mask: u64) -> bool
    ensures several { result ≡ several mask }
{
    mask & mask.saturating_sub(1) != 0
}

// Whether a rule neither forces a literal nor has failed.
fn is_quiet(rule: LiteralSet, assignment: Assignment) -> bool
    ensures quiet { result ≡ is_quiet rule assignment }
{
    is_met(rule, assignment) || has_several(undecided_in(rule, assignment))
}

// The value that the rule wants of a variable, if that is undecided.
fn wanted(rule: LiteralSet, assignment: Assignment, variable: u8) -> Option<bool>
    ensures wanted { result ≡ wanted_at rule assignment variable }
{
    if assignment.has_decided(variable) {
        None
    } else if rule.has(variable as usize, true) {
        Some(true)
    } else if rule.has(variable as usize, false) {
        Some(false)
    } else {
        None
    }
}

// What the first rule says that forces a literal or has failed, each taken on the first variables.
pub fn find_forced(
    sets: &[LiteralSet],
    as_bars: bool,
    variables: u8,
    assignment: Assignment,
) -> Option<Finding>
    ensures first { result ≡ scanned variables (map (as_rule as_bars) sets.now) assignment }
{
    let mask = mask_below(variables);
    'look: {
        for set in sets {
            let rule = masked(rule_of(*set, as_bars), mask);
            if is_quiet(rule, assignment) {
                continue;
            }
            for variable in 0..variables {
                if let Some(closed) = wanted(rule, assignment, variable) {
                    break 'look Some(Finding::Forced { variable, closed });
                }
            }
            break 'look Some(Finding::Failed);
        }
        None
    }
}

// What the first rule says that forces a literal or has failed: of the rules, then of the bars as rules.
pub fn find_forced_in_both(
    rules: &[LiteralSet],
    bars: &[LiteralSet],
    variables: u8,
    assignment: Assignment,
) -> Option<Finding>
    ensures first { result ≡ scanned_both variables rules.now bars.now assignment }
{
    let first = find_forced(rules, false, variables, assignment);
    first.or_else(|| find_forced(bars, true, variables, assignment))
}

// The shortest rules so far: how many undecided variables each has, and how often each variable is one of them.
#[derive(Clone, Copy)]
struct Shortest {
    length: u32,
    counts: [u16; 64],
}

impl Shortest {
    // One rule, by the mask of its undecided variables.
    fn of(mask: u64) -> Self {
        let mut shortest = Shortest {
            length: mask.count_ones(),
            counts: [0; 64],
        };
        shortest.count(mask);
        shortest
    }

    // Counts in the variables of a mask. No iterator goes over the bits of a number.
    fn count(&mut self, mask: u64) {
        let mut left = mask;
        while left != 0 {
            if let Some(occurrences) = self.counts.get_mut(left.trailing_zeros() as usize) {
                *occurrences = occurrences.saturating_add(1);
            }
            left &= left - 1;
        }
    }

    // Counts in one rule more, if it is as short. Most rules are longer, so that is asked first.
    fn note(&mut self, mask: u64) {
        let length = mask.count_ones();
        if length > self.length {
            return;
        }
        if length < self.length {
            *self = Shortest {
                length,
                counts: [0; 64],
            };
        }
        self.count(mask);
    }

    // The variable that occurs most; of several such, the first, where `max_by_key` would answer the last.
    fn most_frequent(&self) -> u8 {
        let mut best = 0;
        let mut most = 0;
        for (variable, occurrences) in (0..64u8).zip(self.counts.iter()) {
            if *occurrences > most {
                most = *occurrences;
                best = variable;
            }
        }
        best
    }
}

// Whether a variable is undecided.
fn is_undecided(assignment: Assignment, variable: u8) -> bool
    ensures undecided { result ≡ not (decided assignment variable) }
{
    !assignment.has_decided(variable)
}

// The first undecided variable, as a search over the numbers finds it.
fn find_undecided(variables: u8, assignment: Assignment) -> Option<u8>
    ensures found { result ≡ find (λ k. not (decided assignment k)) (range_with_len 0 variables) }
{
    (0..variables).find(|variable| is_undecided(assignment, *variable))
}

// The first undecided variable.
pub fn first_undecided(variables: u8, assignment: Assignment) -> Option<u8>
    ensures choice { Choice variables assignment true result }
{
    find_undecided(variables, assignment)
}

// The shortest rules that are not met, if there is one.
#[derive(Clone, Copy)]
pub struct Tally {
    shortest: Option<Shortest>,
}

impl Tally {
    // No rule is counted in.
    pub fn empty() -> Self
        ensures none_unmet { has_unmet result ≡ false }
    {
        Tally { shortest: None }
    }

    // Counts in one rule, unless it is met.
    fn note(&mut self, rule: LiteralSet, assignment: Assignment)
        ensures unmet { has_unmet self.new ≡ (has_unmet self.old || not (is_met rule assignment)) }
    {
        if is_met(rule, assignment) {
            return;
        }
        let left = undecided_in(rule, assignment);
        match &mut self.shortest {
            Some(shortest) => shortest.note(left),
            None => self.shortest = Some(Shortest::of(left)),
        }
    }

    // Counts in more rules, or bars as rules, each taken on the first variables.
    pub fn add(&mut self, sets: &[LiteralSet], as_bars: bool, variables: u8, assignment: Assignment)
        ensures unmet { has_unmet self.new ≡ (has_unmet self.old || any_unmet variables (map (as_rule as_bars) sets.now) assignment) }
    {
        let mask = mask_below(variables);
        for set in sets {
            self.note(masked(rule_of(*set, as_bars), mask), assignment);
        }
    }

    // An undecided variable to try, most often the one that occurs most; none where every rule is met, or all is decided.
    pub fn choose(&self, variables: u8, assignment: Assignment) -> Option<u8>
        ensures choice { Choice variables assignment (has_unmet self.now) result }
    {
        let variable = self.shortest.as_ref()?.most_frequent();
        if variable < variables && is_undecided(assignment, variable) {
            Some(variable)
        } else {
            first_undecided(variables, assignment)
        }
    }
}
