//! Programs that break no rule.

ghost use Rattle.std.specs.Prelude.{◌≡◌, ◌<◌, ◌≤◌, IfOk, IfErr, length, None, Some, slice_get};
ghost use Rattle.std.specs.List.{All};
ghost use Rattle.program.specs.Entries.{ByQueue, entries_of, first_node, seen};
ghost use Rattle.program.specs.FirstFault.{rule_broken, form_broken, use_broken, rules_broken, first_broken, first_fault, Ends};
ghost use Rattle.program.specs.Obeys.{EntryObeys, IsSmall, Obeys};
ghost use Rattle.program.specs.Internal.Nodes.{nodes_of};
ghost use Rattle.program.specs.declared.rule.Rule.{Rule};

use crate::entry::entry_at;
use crate::limits::{limit_broken, queue_nodes};
use crate::location::Location;
use crate::nodes::{NodeAt, nodes_of};
use crate::path::fault_of;
use crate::rule::Rule;
use crate::walk::broken_at;
use crate::{Entry, Program, ProgramFault};
use base::{Broken, List, NoMemory, Shape};
use std::alloc::Global;
use std::marker::Model;
use thiserror::Error;

/// A program that breaks no rule, with its nodes in the order of their numbers: queue by queue in the order of submission,
/// and then the host reads.
#[derive(Debug, Drop)]
pub struct ValidProgram {
    program: Program,
    nodes: List<NodeAt>,
}

impl Model for ValidProgram {
    ghost use Rattle.std.specs.Prelude.{◌≡◌, None};
    ghost use Rattle.program.specs.FirstFault.{first_broken};
    ghost use Rattle.program.specs.Internal.Nodes.{nodes_of};
    ghost use Rattle.program.specs.declared.program.Program.{Program};

    ghost Value = { Program };

    ghost view = { λ s. s.program };

    ghost invariant = { λ s. (first_broken s.program ≡ None) × (s.nodes ≡ nodes_of s.program) };
}

/// Why a program was not taken, and the program itself.
#[derive(Debug, Drop, Error)]
pub enum ProgramError {
    #[error("the submission breaks a rule")]
    Refused(ProgramFault, Program),
    #[error("memory ran out")]
    NoMemory(Program),
}

fn rule_broken(rule: Rule, program: &Program, shapes: &[Shape]) -> Option<Broken<Rule, Location>>
    ensures { result ≡ rule_broken rule program.now shapes.now }
{
    Broken::at(rule, broken_at(rule, program, shapes))
}

// The rules that numbers 2 to 5 stand for.
fn form_broken(program: &Program, shapes: &[Shape]) -> Option<Broken<Rule, Location>>
    ensures { result ≡ form_broken program.now shapes.now }
{
    if let Some(broken) = rule_broken(Rule::Range, program, shapes) {
        return Some(broken);
    }
    if let Some(broken) = rule_broken(Rule::Known, program, shapes) {
        return Some(broken);
    }
    if let Some(broken) = rule_broken(Rule::Stages, program, shapes) {
        return Some(broken);
    }
    rule_broken(Rule::Ignored, program, shapes)
}

// The rules that numbers 6 to 9 stand for.
fn use_broken(program: &Program, shapes: &[Shape]) -> Option<Broken<Rule, Location>>
    ensures { result ≡ use_broken program.now shapes.now }
{
    if let Some(broken) = rule_broken(Rule::Supported, program, shapes) {
        return Some(broken);
    }
    if let Some(broken) = rule_broken(Rule::OnQueue, program, shapes) {
        return Some(broken);
    }
    if let Some(broken) = rule_broken(Rule::Runs, program, shapes) {
        return Some(broken);
    }
    rule_broken(Rule::Timeline, program, shapes)
}

fn rules_broken(program: &Program, shapes: &[Shape]) -> Option<Broken<Rule, Location>>
    ensures { result ≡ rules_broken program.now shapes.now }
{
    if let Some(broken) = form_broken(program, shapes) {
        return Some(broken);
    }
    use_broken(program, shapes)
}

// The limits come first, so that the shapes are few.
fn first_broken(
    alloc: Global,
    program: &Program,
) -> Result<Option<Broken<Rule, Location>>, NoMemory>
    ensures { IfOk result (λ found. found ≡ first_broken program.now) }
{
    if let Some(broken) = limit_broken(program) {
        return Ok(Some(broken));
    }
    let shapes = program.shapes(alloc)?;
    Ok(rules_broken(program, &shapes))
}

/// The program with its nodes numbered, or the first rule that it breaks.
pub fn validate_program(alloc: Global, program: Program) -> Result<ValidProgram, ProgramError>
    ensures shaped { IfOk result (λ shaped. (shaped ≡ program) × (first_fault program ≡ None)) }
    ensures refused { IfErr result (λ end. Ends program end) }
{
    match first_broken(alloc, &program) {
        Ok(None) => numbered(alloc, program),
        Ok(Some(broken)) => match fault_of(alloc, broken) {
            Ok(fault) => Err(ProgramError::Refused(fault, program)),
            Err(NoMemory) => Err(ProgramError::NoMemory(program)),
        },
        Err(NoMemory) => Err(ProgramError::NoMemory(program)),
    }
}

fn numbered(alloc: Global, program: Program) -> Result<ValidProgram, ProgramError>
    requires { first_broken program ≡ None }
    ensures shaped { IfOk result (λ shaped. shaped ≡ program) }
    ensures refused { IfErr result (λ end. Ends program end) }
{
    match nodes_of(alloc, &program) {
        Ok(nodes) => Ok(ValidProgram { program, nodes }),
        Err(NoMemory) => Err(ProgramError::NoMemory(program)),
    }
}

impl ValidProgram {
    /// A program that is known to break no rule, with its nodes numbered.
    pub fn faultless(alloc: Global, program: Program) -> Result<ValidProgram, NoMemory>
        requires { first_fault program ≡ None }
        ensures { IfOk result (λ shaped. shaped ≡ program) }
    {
        let nodes = nodes_of(alloc, &program)?;
        Ok(ValidProgram { program, nodes })
    }

    #[tactic(auto, using(crate::proofs::Few::is_small))]
    pub fn program(&self) -> &Program
        ensures program { result.now ≡ self.now }
        ensures shaped { first_fault self.now ≡ None }
        ensures small { IsSmall self.now }
        ensures obeys { (rule : Rule) → Obeys rule self.now }
        ensures numbered { ByQueue self.now }
        ensures entries { (rule : Rule) → All (EntryObeys rule self.now) (entries_of self.now) }
    {
        &self.program
    }

    /// The program that was shaped.
    pub fn into_program(self) -> Program
        ensures program { result ≡ self }
        ensures shaped { first_fault self ≡ None }
    {
        let ValidProgram { program, .. } = self;
        program
    }

    /// The number of nodes.
    #[tactic(auto, using(crate::proofs::Counting::few_nodes, crate::proofs::Entering::as_many))]
    pub fn node_count(&self) -> u32
        ensures { result ≡ length (entries_of self.now) }
    {
        self.nodes.len() as u32
    }

    /// What the node with the number `n` stands for.
    pub fn entry(&self, n: u32) -> Entry<'_>
        requires { n < length (entries_of self.now) }
        ensures entry { slice_get (entries_of self.now) n ≡ Some (seen result) }
        ensures obeys { (rule : Rule) → EntryObeys rule self.now (seen result) }
    {
        match entry_at(&self.program, self.nodes[n as usize]) {
            Some(entry) => entry,
            None => unreachable!(),
        }
    }

    /// The number of a queue's first node. After the last queue it is that of the first host read.
    pub fn first_node(&self, queue: u32) -> u32
        requires { queue ≤ length self.now.queues }
        ensures first { result ≡ first_node self.now queue }
        ensures numbered { ByQueue self.now }
    {
        queue_nodes(&self.program.queues, queue)
    }
}
