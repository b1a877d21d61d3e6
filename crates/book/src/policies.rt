// Policies as they are kept.
ghost use Rattle.std.specs.Prelude.{◌≡◌};
ghost use Rattle.peal.specs.Policies.{Policy as PealPolicy, mask_of};
ghost use Rattle.book.specs.Acceptance.{no_rules, with_rule};
ghost use Rattle.book.specs.Ranges.{PolicyInRange};

use arrayvec::ArrayVec;
use std::marker::Model;

// A policy has a rule for each signal at most.
pub const MOST_RULES: usize = 16;

pub type Rules = ArrayVec<peal::Rule, MOST_RULES>;

// A policy of an accepted book, or of a book so far: a clause sees the policy of document 01.
#[derive(Clone, Copy)]
pub struct Policy {
    operator: peal::Operator,
    default: i32,
    // The rules are the first `count`; the places after them are blank.
    rules: [peal::Rule; MOST_RULES],
    count: usize,
    // The set of the rules' signals.
    mask: u16,
}

impl Model for Policy {
    ghost use Rattle.std.specs.Prelude.{◌≡◌, length, take};
    ghost use Rattle.std.proofs.Common.{sym};
    ghost use Rattle.arith.specs.Padding.{padded};
    ghost use Rattle.peal.specs.Policies.{Policy as PealPolicy, mask_of};
    ghost use Rattle.peal.specs.Standins.{no_rule};
    ghost use Rattle.book.specs.Ranges.{PolicyInRange};

    ghost Value = { PealPolicy };

    ghost view = { λ p. record { operator = p.operator; default = p.default; rules = take p.count p.rules } };

    ghost invariant = { λ p. (p.mask ≡ mask_of (take p.count p.rules))
        × PolicyInRange (record { operator = p.operator; default = p.default; rules = take p.count p.rules })
        × (length (take p.count p.rules) ≡ p.count)
        × (p.rules ≡ padded 16 no_rule (take p.count p.rules)) };

    ghost inverse = { λ v. record {
      operator = v.operator;
      default = v.default;
      rules = padded 16 no_rule v.rules;
      count = length v.rules;
      mask = mask_of v.rules;
    } };

    ghost inverse_ok = { λ p h i. record {
      operator = p.operator;
      default = p.default;
      rules = sym h.3 i;
      count = h.2 i;
      mask = sym h.0 i;
    } };
}

impl Default for Policy {
    fn default() -> Policy {
        Policy::new(peal::Operator::Min, 0)
    }
}

impl Policy {
    // A policy without rules.
    #[tactic(auto, unfolding(peal::specs::Policies::mask_of, signals::specs::Sets::set_of, arith::specs::Padding::padded, peal::specs::Standins::no_rule))]
    pub(crate) fn new(operator: peal::Operator, default: i32) -> Policy
        requires { PolicyInRange (no_rules operator default) }
        ensures { result ≡ no_rules operator default }
    {
        Policy {
            operator,
            default,
            rules: [peal::Rule {
                signal: 0,
                score: 0,
            }; MOST_RULES],
            count: 0,
            mask: 0,
        }
    }

    // A rule more.
    pub(crate) fn push_rule(&mut self, rule: peal::Rule)
        requires { PolicyInRange (with_rule self.old rule) }
        ensures { self.new ≡ with_rule self.old rule }
    {
        self.mask = (self.mask as u32 + signals::bit(rule.signal)) as u16;
        self.rules[self.count] = rule;
        self.count += 1;
    }

    pub fn operator(&self) -> peal::Operator
        ensures { result ≡ self.now.operator }
    {
        self.operator
    }

    pub fn default_score(&self) -> i32
        ensures { result ≡ self.now.default }
    {
        self.default
    }

    // The rules, which are in range.
    pub fn rules(&self) -> &[peal::Rule]
        ensures rules { result.now ≡ self.now.rules }
        ensures range { PolicyInRange self.now }
    {
        &self.rules[..self.count]
    }

    // The set of the rules' signals.
    pub fn mask(&self) -> u16
        ensures { result ≡ mask_of self.now.rules }
    {
        self.mask
    }
}
