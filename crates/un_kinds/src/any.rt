//! A propagator of any kind.

use un_alt::chosen::Chosen;
use un_alt::frame::Frame;
use un_alt::home::Home;
use un_alt::same::Same;
use un_alt::spaces::Spaces;
use un_alt::zeros::Zeros;
use un_base::ids::VarId;
use un_counted::counted::Counted;
use un_domains::window::Window;
use un_length::length::Length;
use un_prec::before::Before;
use un_prec::below::Below;
use un_prec::inside::Inside;
use un_prec::last::Last;
use un_prec::reads::Reads;
use un_press::across::Across;
use un_press::live::Live;
use un_prop::propagator::{Predicate, Propagator, Pruned, Scratch};
use un_rect::apart::Apart;
use un_rect::clobber::Clobber;
use un_rect::operands::Operands;
use un_slots::per_cycle::PerCycle;

/// A propagator of any kind.
#[derive(Drop)]
pub enum AnyProp {
    Before(Before),
    Reads(Reads),
    Inside(Inside),
    Last(Last),
    Below(Below),
    Chosen(Chosen),
    Zeros(Zeros),
    Spaces(Spaces),
    Same(Same),
    Home(Home),
    Frame(Frame),
    Apart(Apart),
    Clobber(Clobber),
    Operands(Operands),
    PerCycle(PerCycle),
    Length(Length),
    Live(Live),
    Across(Across),
    Counted(Counted),
}

impl Predicate for AnyProp {
    ghost use Rattle.un_kinds.specs.AnyProps.{scope_of, holds_of, any_looks};

    ghost scope = { scope_of };

    ghost holds = { holds_of };

    fn reads(&self) -> &[VarId] {
        match self {
            AnyProp::Before(p) => p.reads(),
            AnyProp::Reads(p) => p.reads(),
            AnyProp::Inside(p) => p.reads(),
            AnyProp::Last(p) => p.reads(),
            AnyProp::Below(p) => p.reads(),
            AnyProp::Chosen(p) => p.reads(),
            AnyProp::Zeros(p) => p.reads(),
            AnyProp::Spaces(p) => p.reads(),
            AnyProp::Same(p) => p.reads(),
            AnyProp::Home(p) => p.reads(),
            AnyProp::Frame(p) => p.reads(),
            AnyProp::Apart(p) => p.reads(),
            AnyProp::Clobber(p) => p.reads(),
            AnyProp::Operands(p) => p.reads(),
            AnyProp::PerCycle(p) => p.reads(),
            AnyProp::Length(p) => p.reads(),
            AnyProp::Live(p) => p.reads(),
            AnyProp::Across(p) => p.reads(),
            AnyProp::Counted(p) => p.reads(),
        }
    }

    fn test(&self, fixed: &[u32]) -> bool {
        match self {
            AnyProp::Before(p) => p.test(fixed),
            AnyProp::Reads(p) => p.test(fixed),
            AnyProp::Inside(p) => p.test(fixed),
            AnyProp::Last(p) => p.test(fixed),
            AnyProp::Below(p) => p.test(fixed),
            AnyProp::Chosen(p) => p.test(fixed),
            AnyProp::Zeros(p) => p.test(fixed),
            AnyProp::Spaces(p) => p.test(fixed),
            AnyProp::Same(p) => p.test(fixed),
            AnyProp::Home(p) => p.test(fixed),
            AnyProp::Frame(p) => p.test(fixed),
            AnyProp::Apart(p) => p.test(fixed),
            AnyProp::Clobber(p) => p.test(fixed),
            AnyProp::Operands(p) => p.test(fixed),
            AnyProp::PerCycle(p) => p.test(fixed),
            AnyProp::Length(p) => p.test(fixed),
            AnyProp::Live(p) => p.test(fixed),
            AnyProp::Across(p) => p.test(fixed),
            AnyProp::Counted(p) => p.test(fixed),
        }
    }

    ghost looks = { any_looks };
}

impl Propagator for AnyProp {
    ghost use Rattle.un_kinds.specs.AnyProps.{cut_of, parts_of, strong_of, span_of};
    ghost use Rattle.un_kinds.specs.AnyProps.{any_keeps, any_lawful, any_whole, any_within, any_forward, any_strength};

    ghost cut = { cut_of };

    ghost parts = { parts_of };

    ghost strong = { strong_of };

    ghost span = { span_of };

    fn is_heavy(&self) -> bool {
        matches!(
            self,
            AnyProp::Frame(_)
                | AnyProp::Apart(_)
                | AnyProp::Clobber(_)
                | AnyProp::PerCycle(_)
                | AnyProp::Length(_)
                | AnyProp::Live(_)
        )
    }

    fn prune_in(&self, w: &mut Window<'_>, scratch: &mut Scratch) -> Pruned {
        match self {
            AnyProp::Before(p) => p.prune_in(w, scratch),
            AnyProp::Reads(p) => p.prune_in(w, scratch),
            AnyProp::Inside(p) => p.prune_in(w, scratch),
            AnyProp::Last(p) => p.prune_in(w, scratch),
            AnyProp::Below(p) => p.prune_in(w, scratch),
            AnyProp::Chosen(p) => p.prune_in(w, scratch),
            AnyProp::Zeros(p) => p.prune_in(w, scratch),
            AnyProp::Spaces(p) => p.prune_in(w, scratch),
            AnyProp::Same(p) => p.prune_in(w, scratch),
            AnyProp::Home(p) => p.prune_in(w, scratch),
            AnyProp::Frame(p) => p.prune_in(w, scratch),
            AnyProp::Apart(p) => p.prune_in(w, scratch),
            AnyProp::Clobber(p) => p.prune_in(w, scratch),
            AnyProp::Operands(p) => p.prune_in(w, scratch),
            AnyProp::PerCycle(p) => p.prune_in(w, scratch),
            AnyProp::Length(p) => p.prune_in(w, scratch),
            AnyProp::Live(p) => p.prune_in(w, scratch),
            AnyProp::Across(p) => p.prune_in(w, scratch),
            AnyProp::Counted(p) => p.prune_in(w, scratch),
        }
    }

    ghost keeps = { any_keeps };

    ghost lawful = { any_lawful };

    ghost whole = { any_whole };

    ghost within = { any_within };

    ghost forward = { any_forward };

    ghost strength = { any_strength };
}
