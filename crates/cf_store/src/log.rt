// A log is opened, and its writers and readers are taken.
ghost use Rattle.std.specs.Prelude.{◌≡◌, ◌*◌, ◌↔◌, [], All, true, IfOk, IfErr};
ghost use Rattle.std.specs.Result.{result_map_both};
ghost use Rattle.std.specs.Option.{option_map};
ghost use Rattle.std.specs.Box.{box_value};
ghost use Rattle.std.specs.Arc.{arc_value};
ghost use Rattle.cf_shape.specs.Places.{sizes_of, word_total as word_total_of};
ghost use Rattle.cf_law.specs.Steps.{new_pass};
ghost use Rattle.cf_setup.specs.SetupText.{SetupText};
ghost use Rattle.cf_table.specs.Values.{IsOf};
ghost use Rattle.cf_store.specs.Homes.{IsHomeAt};
ghost use Rattle.cf_store.specs.Parts.{AreNumbered, IsPlaceOf};
ghost use Rattle.cf_store.specs.declared.refusals.OpenRefusal.TheVariants.{Memory as NoMemory};
ghost use Rattle.cf_store.specs.Opens.{AreSizes, IsNew, BySetup, Opens, Measures, Takes, TakesAt, Forks, refusal_by, sized};

use crate::held::{Log, Reader, Shared, Writer};
use crate::place::Place;
use crate::places::{find_home, places_of};
use crate::refusals::{OpenRefusal, TakeRefusal};
use crate::shown::Sizes;
use cf_row::Memory;
use cf_setup::{Setup, SetupFault, parse_setup, shape_of};
use cf_shape::{Shape, word_total};
use cf_table::{MultiLog, Root};
use std::alloc::Global;
use std::sync::Arc;

fn refusal_of(fault: SetupFault) -> OpenRefusal
    ensures { result ≡ refusal_by fault }
{
    match fault {
        SetupFault::Bad { line, code } => OpenRefusal::Setup(line, code),
        SetupFault::Memory => OpenRefusal::Memory,
    }
}

fn are_sizes(sizes: Sizes) -> bool
    ensures { (result ≡ true) ↔ AreSizes sizes }
{
    let tickets = 1 <= sizes.capacity && sizes.capacity <= 65_536;
    let writers = 1 <= sizes.writers && sizes.writers <= 15;
    tickets && writers && sizes.nodes <= 65_536 && sizes.reserved == 0
}

// The setup that the bytes are the text of, for a log of these sizes.
fn setup_of(alloc: Global, text: &[u8], sizes: Sizes) -> Result<Setup, OpenRefusal>
    ensures { BySetup (λ setup found. found ≡ setup) text.now sizes result }
{
    let setup = match parse_setup(alloc, text) {
        Ok(setup) => setup,
        Err(fault) => return Err(refusal_of(fault)),
    };
    if !are_sizes(sizes) {
        return Err(OpenRefusal::Sizes);
    }
    Ok(setup)
}

fn sized_shape(alloc: Global, setup: &Setup, sizes: Sizes) -> Result<Shape, OpenRefusal>
    requires { AreSizes sizes }
    ensures ok { IfOk result (λ shape. shape ≡ sized setup.now sizes) }
    ensures refused { IfErr result (λ refusal. refusal ≡ NoMemory) }
{
    match shape_of(
        alloc,
        setup,
        sizes.capacity,
        sizes.writers as u8,
        sizes.nodes,
    ) {
        Ok(shape) => Ok(shape),
        Err(_) => Err(OpenRefusal::Memory),
    }
}

fn bytes_of(alloc: Global, setup: &Setup, sizes: Sizes) -> Result<u64, OpenRefusal>
    requires { AreSizes sizes }
    ensures ok { IfOk result (λ bytes. bytes ≡ 8 * word_total_of (sizes_of (sized setup.now sizes))) }
    ensures refused { IfErr result (λ refusal. refusal ≡ NoMemory) }
{
    let shape = sized_shape(alloc, setup, sizes)?;
    Ok(8 * word_total(&shape))
}

/// How many bytes the words of a log take whose setup the bytes are the text of.
pub fn measure(alloc: Global, text: &[u8], sizes: Sizes) -> Result<u64, OpenRefusal>
    ensures { Measures text.now sizes result }
{
    let setup = setup_of(alloc, text, sizes)?;
    bytes_of(alloc, &setup, sizes)
}

impl Log {
    fn of_parts(
        alloc: Global,
        shared: Shared,
        root: Root,
        places: Vec<Place>,
    ) -> Result<Log, OpenRefusal>
        requires root_of { IsOf root shared.log }
        requires root_new { root.view ≡ new_pass [] [] }
        requires placed { All (IsPlaceOf shared.log) places.items }
        requires numbered { AreNumbered shared.log places.items }
        ensures ok { IfOk result (λ log. (arc_value log.of ≡ shared) × (log.root ≡ root) × (log.places.items ≡ places.items)) }
        ensures refused { IfErr result (λ refusal. refusal ≡ NoMemory) }
    {
        let Ok(of) = Arc::new(alloc, shared) else {
            return Err(OpenRefusal::Memory);
        };
        Ok(Log { of, root, places })
    }

    fn of_setup(
        alloc: Global,
        text: Vec<u8>,
        setup: Setup,
        sizes: Sizes,
    ) -> Result<Log, OpenRefusal>
        requires sizes { AreSizes sizes }
        requires stated { SetupText text.items (Ok setup) }
        ensures ok { IfOk result (IsNew text.items setup sizes) }
        ensures refused { IfErr result (λ refusal. refusal ≡ NoMemory) }
    {
        let shape = sized_shape(alloc, &setup, sizes)?;
        let Ok((log, mut root)) = MultiLog::open(alloc, shape) else {
            return Err(OpenRefusal::Memory);
        };
        let Ok(passes) = log.deal(alloc, &mut root) else {
            return Err(OpenRefusal::Memory);
        };
        let Ok(places) = places_of(alloc, passes) else {
            return Err(OpenRefusal::Memory);
        };
        Log::of_parts(alloc, Shared { log, setup, text }, root, places)
    }

    /// An empty log of the setup that the bytes are the text of.
    pub fn open(alloc: Global, text: &[u8], sizes: Sizes) -> Result<Log, OpenRefusal>
        ensures { Opens text.now sizes result }
    {
        let setup = setup_of(alloc, text, sizes)?;
        let Ok(kept) = Vec::from_slice(alloc, text) else {
            return Err(OpenRefusal::Memory);
        };
        Log::of_setup(alloc, kept, setup, sizes)
    }

    /// The setup of the log.
    pub fn setup(&self) -> &Setup
        ensures { result.now ≡ (arc_value self.now.of).setup }
    {
        &self.of.setup
    }

    // Takes the writer of a place whose pass is at home. Without memory the pass stays at home.
    fn take_at(&mut self, alloc: Global, place: usize) -> Option<Box<Writer>>
        requires { IsHomeAt self.old.places.items place }
        ensures { TakesAt place self.old self.new (option_map box_value result) }
    {
        let Ok(of) = Arc::try_clone(&self.of) else {
            return None;
        };
        let Some((pass, way)) = self.places[place].take(alloc) else {
            return None;
        };
        match Box::new(alloc, Writer { of, pass, way }) {
            Ok(writer) => Some(writer),
            Err(refused) => {
                self.places[place].put(refused.value.into_pass());
                None
            }
        }
    }

    /// A writer that is not taken: that of the last place whose pass is at home, or has come home from a writer that was freed.
    pub fn next_writer(&mut self, alloc: Global) -> Result<Box<Writer>, TakeRefusal>
        ensures { Takes self.old self.new (result_map_both box_value (λ refusal. refusal) result) }
    {
        let Some(k) = find_home(&mut self.places) else {
            return Err(TakeRefusal::NoWriter);
        };
        match self.take_at(alloc, k) {
            Some(writer) => Ok(writer),
            None => Err(TakeRefusal::Memory),
        }
    }

    /// A reader, which has seen what the root has.
    pub fn next_reader(&mut self, alloc: Global) -> Result<Box<Reader>, Memory>
        ensures { Forks self.old self.new (result_map_both box_value (λ refusal. refusal) result) }
    {
        let of = Arc::try_clone(&self.of)?;
        let pass = of.log.fork(&mut self.root);
        let words = Vec::new(alloc);
        Ok(Box::new(alloc, Reader { of, pass, words })?)
    }
}
