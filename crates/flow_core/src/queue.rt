ghost use Rattle.std.specs.Prelude.{◌≡◌, ◌<◌, [], ◌∷◌, ◌++◌, length, drop, IsTrue, IsSome, replicate, IfOk, Some};
ghost use Rattle.flow_core.specs.Built.{passed_on};
ghost use Rattle.flow_core.specs.Queues as spec;

use crate::crossing::Passing;
use dip_lists::{Items, Memory};
use std::alloc::Global;
use std::marker::Model;

/// What a move does to the queues of one channel, which it names by their edges.
#[derive(Clone, Copy)]
pub struct Flow<T> {
    /// Whose head it looks at, if it looks at one.
    pub from: Option<u32>,
    /// Whether it takes that head.
    pub take: bool,
    /// What it puts, and where, if it puts anything.
    pub put: Option<(u32, T)>,
}

/// The beats that wait on one edge and channel, at most two.
#[derive(Drop)]
pub(crate) struct Queue<T> {
    head: Option<T>,
    last: Option<T>,
}

impl<T> Model for Queue<T> {
    ghost use Rattle.std.specs.Prelude.{◌≡◌, List, ◌++◌, None};
    ghost use Rattle.flow_core.specs.Queues.{one_waiting};

    ghost Value = { List T };

    ghost view = { λ q. one_waiting q.head ++ one_waiting q.last };

    ghost invariant = { λ q. q.head ≡ None → q.last ≡ None };
}

impl<T: Copy> Queue<T> {
    /// The empty queue.
    pub fn new() -> Queue<T>
        ensures { result ≡ [] }
    {
        Queue {
            head: None,
            last: None,
        }
    }

    /// The beat that came first.
    pub fn first(&self) -> Option<T>
        ensures { result ≡ spec.head_in self.now }
    {
        self.head
    }

    /// Whether one more beat has room.
    pub fn has_room(&self) -> bool
        ensures { result ≡ spec.has_place self.now }
    {
        self.last.is_none()
    }

    /// Takes the beat that came first, if there is one.
    pub fn take(&mut self)
        ensures { self.new ≡ drop 1 self.old }
    {
        self.head = self.last;
        self.last = None;
    }

    /// Puts a beat at the end.
    pub fn put(&mut self, beat: T)
        requires { IsTrue (spec.has_place self.old) }
        ensures { self.new ≡ self.old ++ beat ∷ [] }
    {
        if self.head.is_none() {
            self.head = Some(beat);
        } else {
            self.last = Some(beat);
        }
    }
}

/// The queues of one channel, by their edges.
#[derive(Drop)]
pub(crate) struct Queues<T> {
    all: Vec<Queue<T>>,
}

impl<T> Model for Queues<T> {
    ghost use Rattle.std.specs.Prelude.{List};

    ghost Value = { List (List T) };

    ghost view = { λ queues. queues.all.items };
}

impl<T: Copy + Drop> Queues<T> {
    /// An empty queue for each of so many edges.
    pub fn open(alloc: Global, edges: usize) -> Result<Queues<T>, Memory>
        ensures { IfOk result (λ queues. queues ≡ replicate edges []) }
    {
        let mut all = Vec::new(alloc);
        for _ in 0..edges {
            all.push(Queue::new())?;
        }
        Ok(Queues { all })
    }

    /// The head of an edge's queue.
    pub fn first(&self, edge: u32) -> Option<T>
        ensures { result ≡ spec.head_in (spec.queue self.now edge) }
    {
        match self.all.get(edge as usize) {
            None => None,
            Some(queue) => queue.first(),
        }
    }

    /// Whether one more beat has room on an edge.
    pub fn has_room(&self, edge: u32) -> bool
        ensures { result ≡ spec.has_room_at self.now edge }
    {
        match self.all.get(edge as usize) {
            None => false,
            Some(queue) => queue.has_room(),
        }
    }

    /// Takes the head of an edge, if there is one.
    pub fn take(&mut self, edge: u32)
        ensures { self.new ≡ spec.taken (Some edge) self.old }
    {
        if (edge as usize) < self.all.len() {
            let queue = &mut self.all[edge as usize];
            queue.take();
        }
    }

    /// Lets the head of an edge go on to another, as what a leaf has made of it.
    pub fn pass(&mut self, passing: &Passing<T>)
        requires { IsTrue (spec.has_room_at self.old passing.now.to) }
        ensures { self.new ≡ passed_on self.old passing.now }
    {
        self.take(passing.from);
        self.put(passing.to, passing.beat);
    }

    /// Puts a beat onto an edge.
    pub fn put(&mut self, edge: u32, beat: T)
        requires { IsTrue (spec.has_room_at self.old edge) }
        ensures { self.new ≡ spec.put_last (Some (edge, beat)) self.old }
    {
        let queue = &mut self.all[edge as usize];
        queue.put(beat);
    }
}
