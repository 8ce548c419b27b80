// What is a party's own while another one runs.

ghost use Rattle.std.specs.Prelude.{◌≡◌, IfOk};
ghost use Rattle.js_machine.specs.Begun.{left_of, new_own, nothing_left, own_of, owned, with_left, with_own};

use crate::asked::Wait;
use crate::body::Body;
use crate::frame::Frame;
use crate::machine::Machine;
use crate::new::first_scope;
use crate::outside::HostCall;
use crate::package::Package;
use js_state::scopes::Scopes;
use js_store::store::Store;
use js_text::text::Text;
use js_text::value::Value;
use lava_base::memory::OutOfMemory;
use std::alloc::Global;
use std::marker::Model;
use std::mem;

/// The things of a party that doesn't run.
#[derive(Drop)]
pub struct Own<S: Store> {
    store: S,
    templates: Vec<u32>,
    scopes: Scopes,
    bodies: Vec<Body>,
    scope: u32,
    depth: u32,
    own_package: Package,
    allowed: Vec<Text>,
    calls: Vec<HostCall>,
}

impl<S: Store> Model for Own<S> {
    ghost use Rattle.std.specs.Prelude.{◌≡◌, reverse, true};
    ghost use Rattle.js_machine.specs.Begun as begun;
    ghost use Rattle.js_machine.specs.Bodies.{bodies_of, is_grounded};

    ghost Value = { begun.Own };

    ghost view = { λ o. record {
      me = (S.owner o.store).0;
      objects = S.objects o.store;
      templates = o.templates.items;
      scopes = o.scopes;
      bodies = bodies_of o.scope (reverse o.bodies.items);
      depth = o.depth;
      own_package = o.own_package;
      allowed = o.allowed.items;
      calls = reverse o.calls.items;
    } };

    ghost invariant = { λ o. is_grounded o.scope (reverse o.bodies.items) ≡ true };
}

/// What is left of a body that waits: its frames, the values that they have, and what they keep.
#[derive(Drop)]
pub struct Left {
    frames: Vec<Frame>,
    values: Vec<Value>,
    waits: Vec<Wait>,
}

impl Model for Left {
    ghost use Rattle.std.specs.Prelude.{reverse};
    ghost use Rattle.js_machine.specs.Begun as begun;

    ghost Value = { begun.Left };

    ghost view = { λ l. record {
      frames = reverse l.frames.items;
      values = reverse l.values.items;
      waits = reverse l.waits.items;
    } };
}

impl<S: Store> Own<S> {
    /// The things of a party that has these objects, and its outermost scope.
    pub fn new(
        alloc: Global,
        store: S,
        own_package: Package,
        allowed: Vec<Text>,
    ) -> Result<Own<S>, OutOfMemory>
        ensures { let own = owned (S.owner store) (S.objects store) in
            IfOk result (λ o. o ≡ new_own own own_package allowed.items) }
    {
        let scopes = first_scope(alloc)?;
        Ok(Own {
            store,
            templates: Vec::new(alloc),
            scopes,
            bodies: Vec::new(alloc),
            scope: 0,
            depth: 0,
            own_package,
            allowed,
            calls: Vec::new(alloc),
        })
    }

    /// The party's objects.
    pub fn store(&self) -> &S
        ensures objects { S.objects result.now ≡ self.now.objects }
        ensures owner { (S.owner result.now).0 ≡ self.now.me }
    {
        &self.store
    }
}

impl<S: Store> Machine<S> {
    /// The machine runs the party that has these things, and gives those of the party that ran.
    pub fn exchange(&mut self, own: &mut Own<S>)
        ensures machine { self.new ≡ with_own own.old self.old }
        ensures own { own.new ≡ own_of self.old }
    {
        mem::swap(&mut self.store, &mut own.store);
        mem::swap(&mut self.templates, &mut own.templates);
        mem::swap(&mut self.scopes, &mut own.scopes);
        mem::swap(&mut self.bodies, &mut own.bodies);
        mem::swap(&mut self.scope, &mut own.scope);
        mem::swap(&mut self.depth, &mut own.depth);
        mem::swap(&mut self.own_package, &mut own.own_package);
        mem::swap(&mut self.allowed, &mut own.allowed);
        mem::swap(&mut self.calls, &mut own.calls);
    }

    /// The body that runs is set aside, and nothing is left to do.
    pub fn set_aside(&mut self) -> Left
        ensures left { result ≡ left_of self.old }
        ensures machine { self.new ≡ with_left nothing_left self.old }
    {
        let alloc = self.alloc;
        Left {
            frames: mem::replace(&mut self.frames, Vec::new(alloc)),
            values: mem::replace(&mut self.values, Vec::new(alloc)),
            waits: mem::replace(&mut self.waits, Vec::new(alloc)),
        }
    }

    /// The machine goes on with a body that was set aside, in the place of the one that runs.
    pub fn take_up(&mut self, left: Left)
        ensures { self.new ≡ with_left left self.old }
    {
        let Left {
            frames,
            values,
            waits,
        } = left;
        self.frames = frames;
        self.values = values;
        self.waits = waits;
    }
}
