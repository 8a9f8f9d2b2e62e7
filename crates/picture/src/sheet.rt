//! What is drawn so far.

use crate::attempt::Lane;
use crate::boxes::TransactionBox;
use crate::figure::Figure;
use crate::foot::MOST_LISTED;
use crate::source::Transaction;
use lex::token::Scalar;
use std::alloc::{AllocError, Allocator, Global};

/// How often an inner transaction is looked for in the source.
const MOST_LOOKED: u64 = 1000;

/// A cell of shared memory, as it is named.
#[derive(Drop)]
pub struct Cell<A: Allocator = Global> {
    /// The name of the cell's global, with the cell's index where that is an array.
    pub name: Vec<u8, A>,
    /// The type of the cell's numbers.
    pub ty: Scalar,
}

/// How the last row may go on.
#[derive(Clone, Copy, PartialEq, Eq)]
pub(crate) enum Fold {
    /// The last row does not go on.
    Never,
    /// By threads that wait.
    Waits,
    /// By the load of the lock behind this thread's load of a word.
    Read(u32),
    /// By words of this thread that are found again.
    Same(u32),
    /// By prints of this thread.
    Print(u32),
}

/// A store to a cell.
#[derive(Clone, Copy)]
pub(crate) struct Store {
    pub thread: u32,
    /// How many accesses all threads had made with the store.
    pub access: u64,
}

/// A transaction that took effect.
#[derive(Clone, Copy)]
pub(crate) struct Effect {
    /// The even lock of whose moment the transaction is.
    pub snapshot: u64,
    pub took_lock: bool,
    pub thread: u32,
    /// How many accesses all threads had made by the transaction's end.
    pub access: u64,
    /// Whether that is drawn.
    pub is_drawn: bool,
}

/// Who has the lock: from which row on, who, and its odd value.
#[derive(Clone, Copy)]
pub(crate) struct Holding {
    pub row: u64,
    pub thread: u32,
    pub value: u64,
}

/// What is drawn so far.
#[derive(Drop)]
pub(crate) struct Sheet<'p, A: Allocator = Global> {
    pub alloc: A,
    pub cells: &'p [Cell<A>],
    /// The transactions of the source, in its order.
    pub transactions: &'p [Transaction<A>],
    /// Whether the first access that is drawn has come. Before, threads go on, and nothing is drawn.
    pub is_drawing: bool,
    /// How often an inner transaction was looked for in the source.
    pub looked: u64,
    pub lanes: Vec<Lane<A>, A>,
    /// How many rows there are.
    pub rows: u64,
    pub fold: Fold,
    /// The row from which on the lock is as it is, and its even value.
    pub free: (u64, u64),
    pub held: Option<Holding>,
    /// The last store to each cell.
    pub stores: Vec<Option<Store>, A>,
    /// Transactions that took effect: those that are drawn, and before them at most as many as an order lists.
    pub effects: Vec<Effect, A>,
    /// How many transactions took effect.
    pub effect_count: u64,
    pub dropped: u64,
    /// Boxes, in the order in which they close.
    pub boxes: Vec<TransactionBox<A>, A>,
    pub lock: Vec<Figure<A>, A>,
    /// Numbers of accesses, and brackets.
    pub lines: Vec<Figure<A>, A>,
    /// A sentence for each drop.
    pub drop_sentences: Vec<u8, A>,
}

impl<'p, A: Allocator + Copy> Sheet<'p, A> {
    /// An empty sheet for so many threads.
    pub(crate) fn new(
        alloc: A,
        cells: &'p [Cell<A>],
        transactions: &'p [Transaction<A>],
        threads: u32,
    ) -> Result<Sheet<'p, A>, AllocError> {
        let mut lanes = Vec::new(alloc);
        'threads: for _ in 0..threads {
            lanes.push(Lane::new())?;
        }
        let mut stores = Vec::new(alloc);
        'cells: for _ in 0..cells.len() {
            stores.push(None)?;
        }
        Ok(Sheet {
            alloc,
            cells,
            transactions,
            is_drawing: false,
            looked: 0,
            lanes,
            rows: 0,
            fold: Fold::Never,
            free: (0, 0),
            held: None,
            stores,
            effects: Vec::new(alloc),
            effect_count: 0,
            dropped: 0,
            boxes: Vec::new(alloc),
            lock: Vec::new(alloc),
            lines: Vec::new(alloc),
            drop_sentences: Vec::new(alloc),
        })
    }

    /// Begins to draw: what is open stands in a first row of its own.
    pub(crate) fn wake(&mut self) {
        if self.is_drawing {
            return;
        }
        self.is_drawing = true;
        self.dropped = 0;
        let mut is_open = false;
        'lanes: for lane in self.lanes.iter_mut() {
            if let Some(attempt) = &mut lane.open {
                is_open = true;
                'inner: for inner in attempt.inner.iter_mut() {
                    inner.row = 1;
                }
            }
        }
        if is_open {
            self.rows = 1;
        }
    }

    /// A transaction took effect.
    pub(crate) fn add_effect(&mut self, effect: Effect) -> Result<(), AllocError> {
        self.effect_count = self.effect_count.saturating_add(1);
        if effect.is_drawn || self.effects.len() < MOST_LISTED {
            self.effects.push(effect)?;
        }
        Ok(())
    }

    /// A thread stores to a cell.
    pub(crate) fn add_store(&mut self, cell: u32, store: Store) {
        if let Some(last) = self.stores.get_mut(cell as usize) {
            *last = Some(store);
        }
    }

    /// The last store to a cell.
    pub(crate) fn last_store(&self, cell: u32) -> Option<Store> {
        match self.stores.get(cell as usize) {
            Some(last) => *last,
            None => None,
        }
    }

    /// The transaction of the source whose keyword begins at an offset, if one does.
    pub(crate) fn transaction(&self, keyword: Option<usize>) -> Option<&'p Transaction<A>> {
        let start = keyword?;
        'transactions: for transaction in self.transactions {
            if transaction.passage.start == start {
                return Some(transaction);
            }
        }
        None
    }

    /// The same for an inner transaction, of which a picture may have any number: only the first ones are looked for.
    pub(crate) fn inner_transaction(
        &mut self,
        keyword: Option<usize>,
    ) -> Option<&'p Transaction<A>> {
        if self.looked >= MOST_LOOKED {
            return None;
        }
        self.looked = self.looked.saturating_add(1);
        self.transaction(keyword)
    }

    /// The last row.
    pub(crate) fn last(&self) -> u64 {
        self.rows.saturating_sub(1)
    }

    /// A thread.
    pub(crate) fn lane(&mut self, thread: u32) -> Option<&mut Lane<A>> {
        self.lanes.get_mut(thread as usize)
    }

    /// How many inner transactions of a thread are open.
    pub(crate) fn depth(&self, thread: u32) -> usize {
        match self.lanes.get(thread as usize) {
            Some(lane) => lane.depth(),
            None => 0,
        }
    }
}
