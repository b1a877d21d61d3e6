// Books as they are kept.
ghost use Rattle.std.specs.Prelude.{◌≡◌, ◌<◌, length};
ghost use Rattle.peal.specs.Policies.{Book as PealBook};
ghost use Rattle.book.specs.Acceptance.{empty_book, last_policy, with_rule, with_policy, with_last, with_exclusion, with_condition};
ghost use Rattle.book.specs.Ranges.{PolicyInRange, BookInRange};
ghost use Rattle.std.specs.Coded.{codes as known_codes};
ghost use Rattle.text.proofs.CodedExpressions.{coded_expression};

use crate::conditions::Condition;
use crate::policies::Policy;
use arrayvec::ArrayVec;
use std::marker::Model;

// An accepted book, or a book so far: a clause sees the book of document 01.
#[derive(Clone, Default, Drop)]
pub struct Book {
    policies: ArrayVec<Policy, { limits::MOST_POLICIES }>,
    exclusions: ArrayVec<peal::Exclusion, { limits::MOST_EXCLUSIONS }>,
    conditions: ArrayVec<Condition, { limits::MOST_CONDITIONS }>,
}

impl Model for Book {
    ghost Value = { PealBook };

    ghost coded = { Prim.hlevel (known_codes, coded_expression) };

    ghost view = { λ b. record {
      policies = b.policies.items;
      exclusions = b.exclusions.items;
      conditions = b.conditions.items;
    } };

    ghost invariant = { λ b. BookInRange (record {
      policies = b.policies.items;
      exclusions = b.exclusions.items;
      conditions = b.conditions.items;
    }) };
}

impl Book {
    // The policies. The book is in range.
    pub fn policies(&self) -> &[Policy]
        ensures policies { result.now ≡ self.now.policies }
        ensures range { BookInRange self.now }
    {
        &self.policies
    }

    pub fn exclusions(&self) -> &[peal::Exclusion]
        ensures exclusions { result.now ≡ self.now.exclusions }
        ensures range { BookInRange self.now }
    {
        &self.exclusions
    }

    pub fn conditions(&self) -> &[Condition]
        ensures conditions { result.now ≡ self.now.conditions }
        ensures range { BookInRange self.now }
    {
        &self.conditions
    }

    // The policy that a rule is added to.
    pub(crate) fn last_policy(&self) -> &Policy
        requires { 0 < length self.now.policies }
        ensures { result.now ≡ last_policy self.now }
    {
        let policies = self.policies();
        &policies[policies.len() - 1]
    }

    // Nothing is left, whatever the book held.
    #[tactic(auto, unfolding(crate::specs::Acceptance::empty_book))]
    pub(crate) fn clear(&mut self)
        ensures { self.new ≡ empty_book }
    {
        self.policies.clear();
        self.exclusions.clear();
        self.conditions.clear();
    }

    // A policy more.
    #[tactic(auto, unfolding(crate::specs::Acceptance::with_policy, crate::specs::Acceptance::with_policies))]
    pub(crate) fn push_policy(&mut self, policy: Policy)
        requires { BookInRange (with_policy self.old policy) }
        ensures { self.new ≡ with_policy self.old policy }
    {
        self.policies.push(policy);
    }

    // A rule more in the last policy.
    pub(crate) fn push_rule(&mut self, rule: peal::Rule)
        requires some { 0 < length self.old.policies }
        requires range { PolicyInRange (with_rule (last_policy self.old) rule) }
        ensures { self.new ≡ with_last self.old (with_rule (last_policy self.old) rule) }
    {
        let last = self.policies.len() - 1;
        let policy = &mut self.policies[last];
        policy.push_rule(rule);
    }

    // An exclusion more.
    #[tactic(auto, unfolding(crate::specs::Acceptance::with_exclusion))]
    pub(crate) fn push_exclusion(&mut self, exclusion: peal::Exclusion)
        requires { BookInRange (with_exclusion self.old exclusion) }
        ensures { self.new ≡ with_exclusion self.old exclusion }
    {
        self.exclusions.push(exclusion);
    }

    // A condition more.
    #[tactic(auto, unfolding(crate::specs::Acceptance::with_condition))]
    pub(crate) fn push_condition(&mut self, condition: Condition)
        requires { BookInRange (with_condition self.old condition) }
        ensures { self.new ≡ with_condition self.old condition }
    {
        self.conditions.push(condition);
    }
}
