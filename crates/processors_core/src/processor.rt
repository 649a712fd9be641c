ghost use Rattle.std.specs.Prelude.{◌≡◌, ℕ, ◌+◌, ◌<◌, ◌^◌, Option, IfOk, IfSome};
ghost use Rattle.event_tree.specs.Tree.{value_of};
ghost use Rattle.event_tree.specs.Value.{TreeValue};
ghost use Rattle.event_tree.specs.declared.condition_rule.ConditionRule.{ConditionRule};
ghost use Rattle.event_tree.specs.declared.processor_rule.ProcessorRule.{ProcessorRule};
ghost use Rattle.processors_core.specs.Fates.{shown};
ghost use Rattle.rules_in_range.specs.Processors.{IsProcessorInRange, IsWhenInRange};
ghost use Rattle.processors_core.specs.Made.{acted, rule_acted, when_of, AsksWhen, Does};
ghost use Rattle.processors_core.specs.Outcome.{Outcome, after_one, runs_on};
ghost use Rattle.processors_core.specs.Numbered.{numbered};

use crate::Fate;
use crate::add_fields::FieldAdds;
use crate::add_tags::TagAdds;
use crate::drop_fields::FieldDrops;
use crate::rename::Renames;
use conditions::Condition;
use event_tree::{ConditionRule, ProcessorRule, Tree};
use std::alloc::Global;
use wire_base::{NoMemory, RuleNo};

/// One processor with its paths read and its patterns compiled.
#[derive(Drop)]
pub(crate) struct Processor {
    pub when: Option<Condition>,
    pub action: Action,
}

#[derive(Drop)]
pub(crate) enum Action {
    DropEvent(RuleNo),
    DropFields(FieldDrops),
    AddFields(FieldAdds),
    AddTags(TagAdds),
    Rename(Renames),
}

impl Processor {
    /// The rule's processor. One that drops an event does so by the rule of this number.
    pub fn of(alloc: Global, rule: &ProcessorRule, number: u32) -> Result<Processor, NoMemory>
        requires { IsProcessorInRange rule.now }
        ensures { IfOk result (Does number rule.now) }
    {
        let when = when_of(alloc, rule)?;
        let action = Action::of(alloc, rule, number)?;
        Ok(Processor { when, action })
    }

    pub fn run(&mut self, alloc: Global, tree: Tree) -> Result<Fate, NoMemory>
        ensures fate { IfOk result (λ fate. (number : ℕ) (rule : ProcessorRule) →
            Does number rule self.old →
            shown fate ≡ numbered number (after_one rule (value_of tree))) }
        ensures same { (number : ℕ) (rule : ProcessorRule) →
            Does number rule self.old → Does number rule self.new }
    {
        if runs_on(alloc, &mut self.when, &tree)? {
            self.action.run(alloc, tree)
        } else {
            Ok(Fate::Ship(tree))
        }
    }
}

impl Action {
    fn of(alloc: Global, rule: &ProcessorRule, number: u32) -> Result<Action, NoMemory>
        requires { IsProcessorInRange rule.now }
        ensures { IfOk result (λ action. (tree : TreeValue) →
            acted action tree ≡ rule_acted number rule.now tree) }
    {
        match rule {
            ProcessorRule::DropEvent { .. } => Ok(Action::DropEvent(RuleNo(number))),
            ProcessorRule::DropFields {
                fields,
                ignore_missing,
                ..
            } => {
                let drops = FieldDrops::of(alloc, fields.as_slice(), *ignore_missing)?;
                Ok(Action::DropFields(drops))
            }
            ProcessorRule::AddFields { fields, target, .. } => {
                let added = FieldAdds::of(alloc, fields, target)?;
                Ok(Action::AddFields(added))
            }
            ProcessorRule::AddTags { tags, target, .. } => {
                let tagged = TagAdds::of(alloc, tags.as_slice(), target)?;
                Ok(Action::AddTags(tagged))
            }
            ProcessorRule::Rename {
                fields,
                ignore_missing,
                fail_on_error,
                ..
            } => {
                let renames = Renames::of(
                    alloc,
                    fields.as_slice(),
                    *ignore_missing,
                    *fail_on_error,
                )?;
                Ok(Action::Rename(renames))
            }
        }
    }

    fn run(&self, alloc: Global, tree: Tree) -> Result<Fate, NoMemory>
        ensures { IfOk result (λ fate. shown fate ≡ acted self.now (value_of tree)) }
    {
        match self {
            Action::DropEvent(rule) => Ok(Fate::Dropped(*rule)),
            Action::DropFields(drops) => Ok(Fate::Ship(drops.run(alloc, tree)?)),
            Action::AddFields(added) => Ok(Fate::Ship(added.run(alloc, tree)?)),
            Action::AddTags(tagged) => Ok(Fate::Ship(tagged.run(alloc, tree)?)),
            Action::Rename(renames) => Ok(Fate::Ship(renames.run(alloc, tree)?)),
        }
    }
}

/// The condition under which the processor runs.
fn when_of(alloc: Global, rule: &ProcessorRule) -> Result<Option<Condition>, NoMemory>
    requires { IsProcessorInRange rule.now }
    ensures { IfOk result (AsksWhen (when_of rule.now)) }
{
    match rule {
        ProcessorRule::DropEvent { when } => Ok(Some(Condition::new(alloc, when)?)),
        ProcessorRule::DropFields { when, .. }
        | ProcessorRule::AddFields { when, .. }
        | ProcessorRule::AddTags { when, .. }
        | ProcessorRule::Rename { when, .. } => compiled(alloc, when),
    }
}

fn compiled(alloc: Global, when: &Option<ConditionRule>) -> Result<Option<Condition>, NoMemory>
    requires { IsWhenInRange when.now }
    ensures { IfOk result (AsksWhen when.now) }
{
    match when {
        None => Ok(None),
        Some(rule) => Ok(Some(Condition::new(alloc, rule)?)),
    }
}

fn runs_on(alloc: Global, when: &mut Option<Condition>, tree: &Tree) -> Result<bool, NoMemory>
    ensures runs { IfOk result (λ runs. (rule : Option ConditionRule) → AsksWhen rule when.old →
        runs ≡ runs_on rule (value_of tree.now)) }
    ensures same { (rule : Option ConditionRule) → AsksWhen rule when.old → AsksWhen rule when.new }
{
    match when {
        None => Ok(true),
        Some(condition) => condition.holds(alloc, tree),
    }
}
