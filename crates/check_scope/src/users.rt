// The instance to which a stream or a memory is bound, if it can have only one.

ghost use Rattle.std.specs.Prelude.{◌≡◌, ◌<◌, ℕ, List, [], IfOk, length, get_or, if◌then◌else◌, ◌==◌};
ghost use Rattle.check_scope.specs.Answers.{ScopeAnswers};
ghost use Rattle.check_scope.specs.One.{one_faults, the_one};
ghost use Rattle.check_scope.specs.Users.{users_of, with_user};
ghost use Rattle.check_scope.specs.declared.users.Users.{Users as Among};
ghost use Rattle.check_scope.specs.declared.users.Users.TheVariants.{Nobody};

use crate::fault::{CheckCode, CheckFault, refused};
use std::alloc::Global;
use tapa_base::Place;

/// The instances that something is bound to, as far as the rules ask.
#[derive(Clone, Copy)]
pub enum Users {
    Nobody,
    One(u32),
    Several,
}

impl Users {
    /// One instance more.
    pub fn with(self, instance: u32) -> Users
        ensures { result ≡ with_user self instance }
    {
        match self {
            Users::Nobody => Users::One(instance),
            Users::One(_) => Users::Several,
            Users::Several => Users::Several,
        }
    }

    /// The one instance that something is bound to.
    pub fn only(self, code: CheckCode, place: Place) -> Result<u32, CheckFault>
        ensures { (bound : List ℕ) → self ≡ users_of bound → ScopeAnswers (λ n. n) result (one_faults code place bound) (the_one bound) }
    {
        match self {
            Users::One(instance) => Ok(instance),
            Users::Nobody => Err(refused(code, place)),
            Users::Several => Err(refused(code, place)),
        }
    }
}

/// The instances that each of a row of streams or memories is bound to.
#[derive(Drop)]
pub struct UserTable {
    pub rows: Vec<Users>,
}

impl UserTable {
    /// `count` streams or memories, to which nothing is bound yet.
    pub fn new(alloc: Global, count: usize) -> Result<Self, CheckFault>
        ensures count { ScopeAnswers (λ table. length table.rows.items) result [] count }
        ensures each { IfOk result (λ table. (s : ℕ) (d : Among) → s < count → get_or table.rows.items s d ≡ Nobody) }
    {
        Ok(UserTable {
            rows: vec![in alloc; Users::Nobody; count]?,
        })
    }

    /// Adds an instance at a number, where there is a row of it.
    pub fn add(&mut self, number: u32, instance: u32)
        ensures count { length self.new.rows.items ≡ length self.old.rows.items }
        ensures each { (s : ℕ) (d : Among) → s < length self.old.rows.items
            → get_or self.new.rows.items s d ≡ (if number == s then with_user (get_or self.old.rows.items s d) instance else get_or self.old.rows.items s d) }
    {
        let at = number as usize;
        if at < self.rows.len() {
            self.rows[at] = self.rows[at].with(instance);
        }
    }

    /// The instances at a number.
    pub fn at(&self, number: usize) -> Users
        ensures { (d : Among) → number < length self.now.rows.items → result ≡ get_or self.now.rows.items number d }
    {
        match self.rows.get(number) {
            Some(users) => *users,
            None => Users::Nobody,
        }
    }
}
