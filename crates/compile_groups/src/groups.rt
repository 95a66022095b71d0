//! The groups of a kept frame.

ghost use Rattle.std.specs.Prelude.{◌≡◌, ◌<◌, ◌≤◌, length, Some, slice_get};
ghost use Rattle.std.specs.List.{All, sum_by};
ghost use Rattle.compile_groups.specs.Internal.Tabled.{IsTabled};
ghost use Rattle.compile_groups.specs.Laws.{IsGrouped, IsKnown, IsSmall};
ghost use Rattle.compile_groups.specs.Needs.{group_at, uses_at, numbers_in};
ghost use Rattle.compile_groups.specs.Placed.{is_import, placed, sizes};

use crate::buckets::Buckets;
use crate::{Command, Grouping, Use, UseAt};
use base::{Family, List, Shape};
use std::marker::Model;
use vk::Sharing;

/// What the commands of a kept frame use, in which groups.
#[derive(Drop)]
pub struct Groups {
    grouping: Grouping,
    uses: List<UseAt>,
    by_group: Buckets<u32>,
    placed: List<u32>,
    sizes: List<u32>,
}

impl Model for Groups {
    ghost use Rattle.compile_groups.specs.Internal.Tabled.{IsTabled};
    ghost use Rattle.compile_groups.specs.declared.grouping.Grouping.{Grouping};

    ghost Value = { Grouping };

    ghost view = { λ g. g.grouping };

    ghost invariant = { λ g. IsTabled g.grouping g.uses g.by_group g.placed g.sizes };
}

impl Groups {
    /// With what is looked up: all uses, the numbers of those of each group, and the placed units with their sizes.
    pub(crate) fn new(
        grouping: Grouping,
        uses: List<UseAt>,
        by_group: Buckets<u32>,
        placed: List<u32>,
        sizes: List<u32>,
    ) -> Groups
        requires { IsTabled grouping uses by_group placed sizes }
        ensures { result ≡ grouping }
    {
        Groups {
            grouping,
            uses,
            by_group,
            placed,
            sizes,
        }
    }

    /// The commands, in declared order, and then the copies of exports.
    pub fn commands(&self) -> &[Command]
        ensures commands { result.now ≡ self.now.commands }
        ensures grouped { IsGrouped self.now }
        ensures known { IsKnown self.now }
        ensures small { IsSmall self.now }
    {
        &self.grouping.commands
    }

    /// What each command uses, in their order, and with one command in the order of its operands.
    pub fn uses(&self) -> &[UseAt]
        ensures { result.now ≡ uses_at self.now }
    {
        &self.uses
    }

    pub fn group_count(&self) -> u32
        ensures count { result ≡ length self.now.groups }
        ensures few { result ≤ 1152 }
        ensures grouped { IsGrouped self.now }
        ensures known { IsKnown self.now }
    {
        self.grouping.groups.len() as u32
    }

    /// The numbers of the uses of a group among all uses.
    pub fn group(&self, g: u32) -> &[u32]
        requires { g < length self.now.groups }
        ensures { result.now ≡ numbers_in self.now g }
    {
        self.by_group.of(g)
    }

    /// The uses of a group, in the order of their commands.
    pub fn members(&self, g: u32) -> &[Use]
        requires { g < length self.now.groups }
        ensures members { result.now ≡ group_at self.now g }
        ensures grouped { IsGrouped self.now }
        ensures known { IsKnown self.now }
    {
        &self.grouping.groups[g as usize]
    }

    /// The shapes of the units, and then for each export that of the buffer that it is copied into.
    pub fn shapes(&self) -> &[Shape]
        ensures { result.now ≡ self.now.shapes }
    {
        &self.grouping.shapes
    }

    /// How many units the frame has.
    pub fn unit_count(&self) -> u32
        ensures count { result ≡ length self.now.imports }
        ensures few { result ≤ 256 }
    {
        self.grouping.imports.len() as u32
    }

    pub fn family(&self, queue: u32) -> Family
        requires { queue < length self.now.families }
        ensures { slice_get self.now.families queue ≡ Some result }
    {
        self.grouping.families[queue as usize]
    }

    pub fn sharing(&self, unit: u32) -> Sharing
        requires { unit < length self.now.sharings }
        ensures { slice_get self.now.sharings unit ≡ Some result }
    {
        self.grouping.sharings[unit as usize]
    }

    /// The families of the queues.
    pub fn families(&self) -> &[Family]
        ensures { result.now ≡ self.now.families }
    {
        &self.grouping.families
    }

    /// How each unit is shared.
    pub fn sharings(&self) -> &[Sharing]
        ensures { result.now ≡ self.now.sharings }
    {
        &self.grouping.sharings
    }

    /// Whether a unit is an import.
    pub fn is_import(&self, unit: u32) -> bool
        requires { unit < length self.now.imports }
        ensures { result ≡ is_import self.now unit }
    {
        self.grouping.imports[unit as usize]
    }

    /// The units that a command uses and that are no imports, in declared order.
    pub fn placed(&self) -> &[u32]
        ensures { result.now ≡ placed self.now }
    {
        &self.placed
    }

    /// The number of bytes of each placed unit.
    pub fn sizes(&self) -> &[u32]
        ensures sizes { result.now ≡ sizes self.now }
        ensures few { length result.now ≤ 256 }
        ensures each { All (λ size. size ≤ 16777216) result.now }
        ensures sum { sum_by (λ size. size) result.now ≤ 268435456 }
    {
        &self.sizes
    }
}
