//! The variables in the order in which conflicts met them, as a linked list in flat arrays: the variable
//! move-to-front (VMTF) queue of CaDiCaL (Biere and Fröhlich 2015).

ghost use Rattle.std.specs.Prelude.{◌≡◌, ℕ, ◌<◌, ◌≤◌, ◌^◌, All, IfOk};
ghost use Rattle.learn_solver.specs.QueueFields.{IsRing};

use std::alloc::{AllocError, Global};
use std::marker::Model;

/// All variables in a ring that number 0 closes, each newer than the one before it. Stamps rise along it.
#[derive(Drop)]
pub(crate) struct Queue {
    variables: u32,
    older: Vec<u32>,
    newer: Vec<u32>,
    stamps: Vec<u64>,
    clock: u64,
}

impl Model for Queue {
    ghost Value = { ℕ };

    ghost view = { λ q. q.variables };

    ghost invariant = { λ q. IsRing q.variables q.older.items q.newer.items q.stamps.items };
}

impl Queue {
    /// Returns the queue of variables 1 to `variables`; the highest is the newest.
    pub(crate) fn new(alloc: Global, variables: u32) -> Result<Queue, AllocError>
        requires { variables < 2 ^ 31 }
        ensures { IfOk result (λ queue. queue ≡ variables) }
    {
        let size = variables as usize + 1;
        let mut queue = Queue {
            variables,
            older: vec![in alloc; 0; size]?,
            newer: vec![in alloc; 0; size]?,
            stamps: vec![in alloc; 0; size]?,
            clock: variables as u64,
        };
        queue.line_up();
        Ok(queue)
    }

    // Puts all variables in the order of their numbers.
    fn line_up(&mut self)
        ensures { self.new ≡ self.old }
    {
        for variable in 0..self.variables {
            let at = variable as usize;
            self.newer[at] = variable + 1;
            self.older[at + 1] = variable;
            self.stamps[at + 1] = variable as u64 + 1;
        }
        self.older[0] = self.variables;
    }

    /// Returns the number of variables.
    pub(crate) fn variables(&self) -> u32
        ensures { result ≡ self.now }
    {
        self.variables
    }

    /// Returns the newest variable, or 0 if there is none.
    pub(crate) fn newest(&self) -> u32
        ensures { result ≤ self.now }
    {
        self.older[0]
    }

    /// Returns the next older variable, or 0 if there is none.
    pub(crate) fn older_than(&self, variable: u32) -> u32
        requires { variable ≤ self.now }
        ensures { result ≤ self.now }
    {
        self.older[variable as usize]
    }

    /// Returns the stamp of the variable: a newer one has a higher stamp.
    pub(crate) fn stamp(&self, variable: u32) -> u64
        requires { variable ≤ self.now }
    {
        self.stamps[variable as usize]
    }

    /// Makes the variable the newest one.
    pub(crate) fn renew(&mut self, variable: u32)
        requires { variable ≤ self.old }
        ensures { self.new ≡ self.old }
    {
        let at = variable as usize;
        let before = self.older[at];
        let behind = self.newer[at];
        self.newer[before as usize] = behind;
        self.older[behind as usize] = before;
        let newest = self.older[0];
        self.older[at] = newest;
        self.newer[newest as usize] = variable;
        self.newer[at] = 0;
        self.older[0] = variable;
        self.clock = self.clock.saturating_add(1);
        self.stamps[at] = self.clock;
    }

    /// Makes the variables the newest ones, and keeps their order. After an error the queue has the same variables.
    pub(crate) fn renew_all(&mut self, alloc: Global, variables: &[u32]) -> Result<(), AllocError>
        requires { All (λ x. x ≤ self.old) variables.now }
        ensures { self.new ≡ self.old }
    {
        let order = self.by_stamp(alloc, variables)?;
        for pair in &order {
            self.renew(pair.1);
        }
        Ok(())
    }

    // Returns the variables with their stamps, the oldest first.
    fn by_stamp(&self, alloc: Global, variables: &[u32]) -> Result<Vec<(u64, u32)>, AllocError>
        requires { All (λ x. x ≤ self.now) variables.now }
        ensures { IfOk result (λ order. All (λ (p : ℕ × ℕ). p.1 ≤ self.now) order.items) }
    {
        let mut order = Vec::with_capacity(alloc, variables.len())?;
        for variable in variables {
            order.push((self.stamp(*variable), *variable))?;
        }
        order.sort_unstable();
        Ok(order)
    }
}
