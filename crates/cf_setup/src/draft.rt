// What is stated so far, and what names stand for.
ghost use Rattle.std.specs.Prelude.{◌≡◌, ℕ, List, ◌≤◌, ◌<◌, ◌==◌, length, true, false, nat_le, Some, None, All, IfOk, IfErr};
ghost use Rattle.std.specs.List.{list_any};
ghost use Rattle.std.specs.Option.{option_map};
ghost use Rattle.std.specs.Str.{bytes_eq};
ghost use Rattle.cf_filter.specs.Reading.{attr_named};
ghost use Rattle.cf_setup.specs.declared.fault.Code.TheVariants.{NameTaken, NoSuchName, TooMany};
ghost use Rattle.cf_setup.specs.Drafts.{DraftValue, nothing_stated, attrs_of, with_lane as with_lane_of, with_trigger as with_trigger_of, with_ask as with_ask_of};
ghost use Rattle.cf_setup.specs.Adds.{with_schema as with_schema_of};
ghost use Rattle.cf_setup.specs.Named.{place_in, is_among as is_among_of, is_taken as is_taken_of, lane_named, is_of as is_of_family, trigger_named, kind_of_key as kind_of_key_in};

use crate::fault::Code;
use crate::source::Source;
use cf_filter::find_attr;
use cf_fold::Trigger;
use cf_plain::Ask;
use cf_row::{Kind, Memory, Name, Schema};
use cf_shape::{Key, Lane};
use std::alloc::Global;
use std::marker::Model;

/// What the lines so far have stated.
#[derive(Debug, Drop)]
pub(crate) struct Draft {
    pub(crate) source: Source,
    pub(crate) schema_line: u32,
    pub(crate) schema: Option<Schema>,
    pub(crate) width: Option<u64>,
    pub(crate) lanes: Vec<Lane>,
    pub(crate) triggers: Vec<Trigger>,
    pub(crate) asks: Vec<Ask>,
    pub(crate) lives: Vec<u8>,
    pub(crate) lane_names: Vec<Name>,
    pub(crate) trigger_names: Vec<Name>,
    pub(crate) ask_names: Vec<Name>,
}

impl Model for Draft {
    ghost use Rattle.cf_setup.specs.Drafts.{DraftValue};

    ghost Value = { DraftValue };

    ghost view = { λ s. record {
      source = s.source;
      schema_line = s.schema_line;
      schema = s.schema;
      width = s.width;
      lanes = s.lanes.items;
      triggers = s.triggers.items;
      asks = s.asks.items;
      lives = s.lives.items;
      lane_names = s.lane_names.items;
      trigger_names = s.trigger_names.items;
      ask_names = s.ask_names.items;
    } };
}

/// The kinds of lanes that statements make.
#[derive(Clone, Copy, Debug, PartialEq, Eq)]
pub(crate) enum Family {
    Index,
    Filter,
    /// An aggregate, by a key or not.
    Aggregate,
    /// An aggregate that is not by a key.
    Unkeyed,
    Tally,
    /// An aggregate or a tally.
    Measuring,
}

impl Family {
    fn has(self, lane: &Lane) -> bool
        ensures { result ≡ is_of_family self lane.now }
    {
        let is_indexed = match lane.key {
            Key::Attr(_) => true,
            Key::Bucket | Key::BucketBy(_) => false,
        };
        let is_keyed = match lane.key {
            Key::BucketBy(_) => true,
            Key::Attr(_) | Key::Bucket => false,
        };
        match self {
            Family::Index => is_indexed && lane.measure.is_none(),
            Family::Filter => !is_indexed && lane.measure.is_none(),
            Family::Aggregate => !is_indexed && lane.measure.is_some(),
            Family::Unkeyed => !is_indexed && lane.measure.is_some() && !is_keyed,
            Family::Tally => is_indexed && lane.measure.is_some(),
            Family::Measuring => lane.measure.is_some(),
        }
    }
}

fn is_named(name: &Name, bytes: &[u8]) -> bool
    ensures { result ≡ bytes_eq name.now bytes.now }
{
    name.as_str().as_bytes() == bytes
}

fn place_of(names: &[Name], name: &[u8]) -> Option<usize>
    ensures { result ≡ place_in names.now name.now }
{
    names.iter().position(|other| is_named(other, name))
}

fn is_among(names: &[Name], name: &[u8]) -> bool
    ensures { result ≡ is_among_of names.now name.now }
{
    names.iter().any(|other| is_named(other, name))
}

fn room(len: usize, most: usize) -> Result<(), Code>
    ensures room { IfOk result (λ _. nat_le most len ≡ false) }
    ensures full { IfErr result (λ code. (nat_le most len ≡ true) × (code ≡ TooMany)) }
{
    if len >= most {
        return Err(Code::TooMany);
    }
    Ok(())
}

// What names stand for. A name that stands for nothing of the kind is `NoSuchName`.
impl Draft {
    /// No statement before has given the name.
    pub(crate) fn must_be_free(&self, name: &[u8]) -> Result<(), Code>
        ensures free { IfOk result (λ _. is_taken_of self.now name.now ≡ false) }
        ensures taken { IfErr result (λ code. (is_taken_of self.now name.now ≡ true) × (code ≡ NameTaken)) }
    {
        let is_taken = is_among(&self.lane_names, name)
            || is_among(&self.trigger_names, name)
            || is_among(&self.ask_names, name);
        if is_taken {
            return Err(Code::NameTaken);
        }
        Ok(())
    }

    /// The place and the kind of the attribute of that name.
    pub(crate) fn attr(&self, name: &[u8]) -> Result<(u8, Kind), Code>
        ensures found { IfOk result (λ found. attr_named (attrs_of self.now) name.now ≡ Some found) }
        ensures none { IfErr result (λ code. (attr_named (attrs_of self.now) name.now ≡ None) × (code ≡ NoSuchName)) }
    {
        match &self.schema {
            Some(schema) => find_attr(schema, name).ok_or(Code::NoSuchName),
            None => Err(Code::NoSuchName),
        }
    }

    #[tactic(auto, using(std::proofs::lemmas::Option::slice_get_within))]
    fn lane_at(&self, family: Family, name: &[u8]) -> Option<(u8, &Lane)>
        requires { length self.now.lanes ≤ 16 }
        ensures { option_map (λ x. (x.0, x.1.now)) result ≡ lane_named (is_of_family family) self.now name.now }
    {
        let place = place_of(&self.lane_names, name)?;
        let lane = self.lanes.get(place)?;
        if !family.has(lane) {
            return None;
        }
        Some((place as u8, lane))
    }

    /// The number of the lane of that name and the lane, if it is of the family.
    pub(crate) fn lane(&self, family: Family, name: &[u8]) -> Result<(u8, &Lane), Code>
        requires { length self.now.lanes ≤ 16 }
        ensures found { IfOk result (λ x. lane_named (is_of_family family) self.now name.now ≡ Some (x.0, x.1.now)) }
        ensures none { IfErr result (λ code. (lane_named (is_of_family family) self.now name.now ≡ None) × (code ≡ NoSuchName)) }
    {
        match self.lane_at(family, name) {
            Some(found) => Ok(found),
            None => Err(Code::NoSuchName),
        }
    }

    /// The trigger of that name.
    pub(crate) fn trigger(&self, name: &[u8]) -> Result<Trigger, Code>
        ensures found { IfOk result (λ trigger. trigger_named self.now name.now ≡ Some trigger) }
        ensures none { IfErr result (λ code. (trigger_named self.now name.now ≡ None) × (code ≡ NoSuchName)) }
    {
        let place = place_of(&self.trigger_names, name).ok_or(Code::NoSuchName)?;
        self.triggers.get(place).copied().ok_or(Code::NoSuchName)
    }

    /// The place of the ask of that name.
    pub(crate) fn ask(&self, name: &[u8]) -> Result<u8, Code>
        requires { length self.now.ask_names ≤ 32 }
        ensures found { IfOk result (λ place. place_in self.now.ask_names name.now ≡ Some place) }
        ensures none { IfErr result (λ code. (place_in self.now.ask_names name.now ≡ None) × (code ≡ NoSuchName)) }
    {
        match place_of(&self.ask_names, name) {
            Some(place) => Ok(place as u8),
            None => Err(Code::NoSuchName),
        }
    }

    fn is_live(&self, ask: u8) -> bool
        ensures { result ≡ list_any (λ live. live == ask) self.now.lives }
    {
        self.lives.iter().any(|live| *live == ask)
    }

    /// The ask at that place is not live yet.
    pub(crate) fn must_not_be_live(&self, ask: u8) -> Result<(), Code>
        ensures no { IfOk result (λ _. list_any (λ live. live == ask) self.now.lives ≡ false) }
        ensures yes { IfErr result (λ code. (list_any (λ live. live == ask) self.now.lives ≡ true) × (code ≡ NameTaken)) }
    {
        if self.is_live(ask) {
            return Err(Code::NameTaken);
        }
        Ok(())
    }

    /// The kind of the key's values.
    pub(crate) fn kind_of_key(&self, key: Key) -> Option<Kind>
        ensures { result ≡ kind_of_key_in (attrs_of self.now) key }
    {
        let schema = self.schema.as_ref()?;
        match key {
            Key::Attr(attr) => Some(schema.attrs().get(attr as usize)?.kind),
            Key::Bucket | Key::BucketBy(_) => None,
        }
    }
}

// Room for what is new: 16 lanes, 16 triggers and 32 asks.
impl Draft {
    /// There is room for one lane more.
    pub(crate) fn lane_room(&self) -> Result<(), Code>
        ensures room { IfOk result (λ _. nat_le 16 (length self.now.lanes) ≡ false) }
        ensures full { IfErr result (λ code. (nat_le 16 (length self.now.lanes) ≡ true) × (code ≡ TooMany)) }
    {
        room(self.lanes.len(), 16)
    }

    /// There is room for one trigger more.
    pub(crate) fn trigger_room(&self) -> Result<(), Code>
        ensures room { IfOk result (λ _. nat_le 16 (length self.now.triggers) ≡ false) }
        ensures full { IfErr result (λ code. (nat_le 16 (length self.now.triggers) ≡ true) × (code ≡ TooMany)) }
    {
        room(self.triggers.len(), 16)
    }

    /// There is room for one ask more.
    pub(crate) fn ask_room(&self) -> Result<(), Code>
        ensures room { IfOk result (λ _. nat_le 32 (length self.now.asks) ≡ false) }
        ensures full { IfErr result (λ code. (nat_le 32 (length self.now.asks) ≡ true) × (code ≡ TooMany)) }
    {
        room(self.asks.len(), 32)
    }
}

// What statements add.
impl Draft {
    /// Nothing is stated.
    pub(crate) fn new(alloc: Global) -> Draft
        ensures { result ≡ nothing_stated }
    {
        Draft {
            source: Source::Records,
            schema_line: 0,
            schema: None,
            width: None,
            lanes: Vec::new(alloc),
            triggers: Vec::new(alloc),
            asks: Vec::new(alloc),
            lives: Vec::new(alloc),
            lane_names: Vec::new(alloc),
            trigger_names: Vec::new(alloc),
            ask_names: Vec::new(alloc),
        }
    }

    /// The schema, stated at that line.
    pub(crate) fn with_schema(self, line: u32, source: Source, schema: Schema) -> Draft
        ensures { result ≡ with_schema_of line self source schema }
    {
        let mut draft = self;
        draft.source = source;
        draft.schema_line = line;
        draft.schema = Some(schema);
        draft
    }

    /// One lane more.
    pub(crate) fn with_lane(self, alloc: Global, name: &[u8], lane: Lane) -> Result<Draft, Memory>
        requires { All (λ b. b < 128) name.now }
        ensures { IfOk result (λ draft. draft ≡ with_lane_of self name.now lane) }
    {
        let mut draft = self;
        draft.lane_names.push(Name::from_ascii(alloc, name)?)?;
        draft.lanes.push(lane)?;
        Ok(draft)
    }

    /// One trigger more.
    pub(crate) fn with_trigger(
        self,
        alloc: Global,
        name: &[u8],
        trigger: Trigger,
    ) -> Result<Draft, Memory>
        requires { All (λ b. b < 128) name.now }
        ensures { IfOk result (λ draft. draft ≡ with_trigger_of self name.now trigger) }
    {
        let mut draft = self;
        draft.trigger_names.push(Name::from_ascii(alloc, name)?)?;
        draft.triggers.push(trigger)?;
        Ok(draft)
    }

    /// One ask more.
    pub(crate) fn with_ask(self, alloc: Global, name: &[u8], ask: Ask) -> Result<Draft, Memory>
        requires { All (λ b. b < 128) name.now }
        ensures { IfOk result (λ draft. draft ≡ with_ask_of self name.now ask) }
    {
        let mut draft = self;
        draft.ask_names.push(Name::from_ascii(alloc, name)?)?;
        draft.asks.push(ask)?;
        Ok(draft)
    }
}
