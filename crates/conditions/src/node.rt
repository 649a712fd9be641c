ghost use Rattle.std.specs.Prelude.{◌≡◌, map, IfOk};
ghost use Rattle.std.specs.List.{list_all, list_any};
ghost use Rattle.event_tree.specs.Tree.{value_of};
ghost use Rattle.event_tree.specs.Value.{TreeValue};
ghost use Rattle.conditions.specs.Holds.{holds};
ghost use Rattle.rules_in_range.specs.Conditions.{AreSome, IsConditionInRange};
ghost use Rattle.conditions.specs.Tests.{is_passed};
ghost use Rattle.conditions.specs.Truth.{truth_of};

use crate::compiled::Patterns;
use crate::field_test::FieldTest;
use crate::rule_tests::{bounds_tests, equality_tests, pattern_tests, presence_tests, text_tests};
use event_tree::{ConditionRule, Tree};
use std::alloc::Global;
use wire_base::NoMemory;

/// One level of a condition: what is asked of fields, or how other conditions are joined.
#[derive(Drop)]
pub(crate) enum Node {
    /// Each field passes its test.
    Each(Vec<FieldTest>),
    And(Vec<Node>),
    Or(Vec<Node>),
    Not(Box<Node>),
}

impl Node {
    /// The rule with its paths read. Its patterns are compiled and added to the others. This many levels bound the
    /// recursion.
    #[cycle(made)]
    pub fn of(
        alloc: Global,
        rule: &ConditionRule,
        levels: usize,
        patterns: &mut Patterns,
    ) -> Result<Node, NoMemory>
        requires { IsConditionInRange levels rule.now }
        ensures { IfOk result (λ node. (tree : TreeValue) →
            truth_of node tree ≡ holds rule.now tree) }
    {
        let below = levels - 1;
        match rule {
            ConditionRule::Equals(pairs) => Ok(Node::Each(equality_tests(alloc, pairs)?)),
            ConditionRule::Contains(texts) => Ok(Node::Each(text_tests(alloc, texts.as_slice())?)),
            ConditionRule::Regexp(texts) => {
                patterns.compile(alloc, texts.as_slice())?;
                Ok(Node::Each(pattern_tests(alloc, texts.as_slice())?))
            }
            ConditionRule::Range(ranges) => Ok(Node::Each(bounds_tests(alloc, ranges.as_slice())?)),
            ConditionRule::HasFields(paths) => {
                Ok(Node::Each(presence_tests(alloc, paths.as_slice())?))
            }
            ConditionRule::And(rules) => {
                Ok(Node::And(nodes_of(alloc, rules.as_slice(), below, patterns)?))
            }
            ConditionRule::Or(rules) => {
                Ok(Node::Or(nodes_of(alloc, rules.as_slice(), below, patterns)?))
            }
            ConditionRule::Not(inner) => {
                let node = Node::of(alloc, inner, below, patterns)?;
                Ok(Node::Not(Box::new(alloc, node)?))
            }
        }
    }

    /// Whether it holds of the tree.
    #[cycle(asked)]
    pub fn holds(
        &self,
        alloc: Global,
        patterns: &mut Patterns,
        tree: &Tree,
    ) -> Result<bool, NoMemory>
        ensures { IfOk result (λ truth. truth ≡ truth_of self.now (value_of tree.now)) }
    {
        match self {
            Node::Each(tests) => all_pass(alloc, tests, patterns, tree),
            Node::And(nodes) => all_hold(alloc, nodes, patterns, tree),
            Node::Or(nodes) => some_hold(alloc, nodes, patterns, tree),
            Node::Not(node) => Ok(!node.holds(alloc, patterns, tree)?),
        }
    }
}

#[cycle(made)]
fn nodes_of(
    alloc: Global,
    rules: &[ConditionRule],
    levels: usize,
    patterns: &mut Patterns,
) -> Result<Vec<Node>, NoMemory>
    requires { AreSome (IsConditionInRange levels) rules.now }
    ensures { IfOk result (λ nodes. (tree : TreeValue) →
        map (λ node. truth_of node tree) nodes.items ≡ map (λ rule. holds rule tree) rules.now) }
{
    let mut nodes = Vec::with_capacity(alloc, rules.len())?;
    for i in 0..rules.len() {
        let node = Node::of(alloc, &rules[i], levels, patterns)?;
        nodes.push(node)?;
    }
    Ok(nodes)
}

#[cycle(asked)]
fn all_hold(
    alloc: Global,
    nodes: &[Node],
    patterns: &mut Patterns,
    tree: &Tree,
) -> Result<bool, NoMemory>
    ensures { IfOk result (λ truth.
        truth ≡ list_all (λ node. truth_of node (value_of tree.now)) nodes.now) }
{
    for i in 0..nodes.len() {
        if !nodes[i].holds(alloc, patterns, tree)? {
            return Ok(false);
        }
    }
    Ok(true)
}

#[cycle(asked)]
fn some_hold(
    alloc: Global,
    nodes: &[Node],
    patterns: &mut Patterns,
    tree: &Tree,
) -> Result<bool, NoMemory>
    ensures { IfOk result (λ truth.
        truth ≡ list_any (λ node. truth_of node (value_of tree.now)) nodes.now) }
{
    for i in 0..nodes.len() {
        if nodes[i].holds(alloc, patterns, tree)? {
            return Ok(true);
        }
    }
    Ok(false)
}

fn all_pass(
    alloc: Global,
    tests: &[FieldTest],
    patterns: &mut Patterns,
    tree: &Tree,
) -> Result<bool, NoMemory>
    ensures { IfOk result (λ truth.
        truth ≡ list_all (λ test. is_passed test (value_of tree.now)) tests.now) }
{
    for test in tests {
        if !test.passes(alloc, patterns, tree)? {
            return Ok(false);
        }
    }
    Ok(true)
}
