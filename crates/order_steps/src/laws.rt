//! Laws of orders as lists of steps. A law has no code: its contract is what it says. C is what a code's next
//! instruction depends on: the place, frames and registers of one thread. bounds are the bounds of the cells' words.

ghost use Rattle.std.specs.Prelude.{ℕ, List};
ghost use Rattle.syntax.specs.Behaviours.{IsMemory, Means};
ghost use Rattle.syntax.specs.Names.{bounds as program_bounds, initial_memory};
ghost use Rattle.syntax.specs.Threads.{thread as source};
ghost use Rattle.syntax.specs.Tree.{Program};
ghost use Rattle.bytecode.specs.Effects.{Effect, FitsCells};
ghost use Rattle.bytecode.specs.Sequential.{meaning};
ghost use Rattle.order_steps.specs.Stepped.{GetsOn, MachineDoesAll, OrdersAreSteps, SourceOrdersLead, TurnsAreDetermined};

/// A turn of a thread that rests, from its begin to where it rests again, is some number of its steps alone, from every
/// world whose lock is free and wherever the other threads are. No attempt is dropped.
pub fn turns_are_steps<C>()
    ensures { (code : C → Effect C) (bounds : List ℕ) → FitsCells code bounds → GetsOn code bounds }
{}

/// Each order of turns is a list of steps, of which none stops and none drops an attempt: it leads to a free lock, the
/// memory that the order leaves, and each thread where the order's rests. The steps are the order's turns: each is made by
/// its thread alone, from an outermost begin to where it rests for the first time.
pub fn orders_are_steps<C>()
    ensures { (code : C → Effect C) (init : ℕ → C) (p : Program) → FitsCells code (program_bounds p) →
        OrdersAreSteps code init p }
{}

/// Each order of the source in which no thread is spent is an order of turns: its threads rest where it leads, with its
/// memory, its texts and its ends.
pub fn source_orders_lead<C>()
    ensures { (code : C → Effect C) (init : ℕ → C) (p : Program) → FitsCells code (program_bounds p) →
        Means (program_bounds p) (meaning code init) (source p) → SourceOrdersLead code init p }
{}

/// The turns of an order are determined: each of them ends where its thread rests for the first time.
pub fn turns_are_determined<C>()
    ensures { (code : C → Effect C) (init : ℕ → C) → TurnsAreDetermined code init }
{}

/// What the source can do, the machine can: each order of the source in which no thread is spent, of fewer than
/// 2^63 - 1 entries, is a list of steps that do not stop. It leaves a free lock, the order's memory, and each thread
/// with the order's text and end: where it waits in the order it runs, has no attempt and is at an outermost begin. No
/// step drops an attempt. So for every code that fits the cells of a program and means it.
pub fn machine_does_all<C>()
    ensures { (code : C → Effect C) (init : ℕ → C) → MachineDoesAll code init }
{}
