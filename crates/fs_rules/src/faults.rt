//! The broken rule that is answered, while rules are looked at.

ghost use Rattle.std.specs.Prelude.{◌≡◌, ◌||◌, ◌&&◌, ◌==◌, Some, None};
ghost use Rattle.fs_rules.specs.Rules.{rule_rank, is_sooner, broken_where};
ghost use Rattle.fs_rules.specs.FirstFault.{sooner, earliest};

use crate::check::{CheckFault, CheckRule};

/// The soonest of the broken rules that were noted.
#[derive(Clone, Copy)]
pub struct Faults {
    pub first: Option<CheckFault>,
}

// The place of a rule in the order of rules.
fn rank(rule: CheckRule) -> u8
    ensures { result ≡ rule_rank rule }
{
    match rule {
        CheckRule::TwiceNamed => 1,
        CheckRule::UnknownName => 2,
        CheckRule::WrongSort => 3,
        CheckRule::AssignInput => 4,
        CheckRule::AssignedTwice => 5,
        CheckRule::NoElse => 6,
        CheckRule::AfterElse => 7,
        CheckRule::TooManyBranches => 8,
        CheckRule::EndlessLine => 9,
        CheckRule::UnknownState => 10,
        CheckRule::TooMany => 11,
        CheckRule::TooManyEmits => 12,
    }
}

// Whether one broken rule comes before another.
fn is_sooner(f: &CheckFault, g: &CheckFault) -> bool
    ensures { result ≡ is_sooner f.now g.now }
{
    f.line < g.line || (f.line == g.line && rank(f.rule) < rank(g.rule))
}

impl Faults {
    /// No broken rule.
    pub fn new() -> Faults
        ensures { result.first ≡ None }
    {
        Faults { first: None }
    }

    /// Notes a broken rule.
    pub fn note(&mut self, rule: CheckRule, line: u32)
        ensures { self.new.first ≡ Some (sooner self.old.first (record { rule = rule; line = line })) }
    {
        let fault = CheckFault { rule, line };
        match self.first {
            None => self.first = Some(fault),
            Some(known) => {
                if is_sooner(&fault, &known) {
                    self.first = Some(fault);
                }
            }
        }
    }

    /// Notes a rule where it is broken.
    pub fn note_where(&mut self, broken: bool, rule: CheckRule, line: u32)
        ensures { self.new.first ≡ earliest self.old.first (broken_where broken rule line) }
    {
        if broken {
            self.note(rule, line);
        }
    }
}
