// A place of a writer.
ghost use Rattle.std.specs.Prelude.{◌≡◌, [], None, Some, true};
ghost use Rattle.std.specs.Option.{is_some as is_some_of};
ghost use Rattle.cf_store.specs.Homes.{HasLooked, IsHome, Takes, at_home};

use crate::way::{Homeward, Way, way_for};
use cf_table::WriterPass;
use rtrb::Consumer;
use std::alloc::Global;
use std::marker::Model;

/// The place of a writer: its pass is at home, or it is away, or has come home since. Contracts see the pass that is at home; those that
/// came by the last way, the first of which is the one that was taken; and those that are known to be on it.
#[derive(Drop)]
pub(crate) struct Place {
    home: Option<WriterPass>,
    way: Option<Consumer<WriterPass, Global, Homeward>>,
}

impl Model for Place {
    ghost use Rattle.cf_store.specs.Homes.{PlaceValue, came_by, known_by};

    ghost Value = { PlaceValue };

    ghost view = { λ p. record { home = p.home; came = came_by p.way; known = known_by p.way } };
}

impl Place {
    /// The place of a pass that is at home.
    pub(crate) fn of(pass: WriterPass) -> Place
        ensures { result ≡ at_home pass }
    {
        Place {
            home: Some(pass),
            way: None,
        }
    }

    /// Whether the pass is at home.
    pub(crate) fn is_home(&self) -> bool
        ensures { result ≡ is_some_of self.now.home }
    {
        self.home.is_some()
    }

    /// A pass that has come since is at home then. If none is, the way was empty.
    pub(crate) fn look(&mut self)
        ensures looked { HasLooked self.old self.new }
        ensures empty { self.new.home ≡ None → self.new.known ≡ [] }
    {
        if self.home.is_some() {
            return;
        }
        if let Some(way) = &mut self.way {
            if let Ok(pass) = way.pop() {
                self.home = Some(pass);
            }
        }
    }

    /// Takes the pass, with its way home, if it is at home. Without memory it stays at home.
    pub(crate) fn take(&mut self, alloc: Global) -> Option<(WriterPass, Way)>
        requires { is_some_of self.old.home ≡ true }
        ensures { Takes self.old self.new result }
    {
        let Some(pass) = self.home.take() else {
            unreachable!();
        };
        match way_for(alloc, pass) {
            Ok((pass, way, home)) => {
                self.way = Some(home);
                Some((pass, way))
            }
            Err(pass) => {
                self.home = Some(pass);
                None
            }
        }
    }

    /// Its pass, which is at home. The place ends.
    pub(crate) fn into_pass(self) -> WriterPass
        requires { IsHome self }
        ensures { self.home ≡ Some result }
    {
        let Place { home, .. } = self;
        let Some(pass) = home else {
            unreachable!();
        };
        pass
    }

    /// Puts a pass there that was taken from there, and was not sent.
    pub(crate) fn put(&mut self, pass: WriterPass)
        ensures { self.new ≡ record self.old { home = Some pass } }
    {
        self.home = Some(pass);
    }
}
