// What a setup names.
ghost use Rattle.std.specs.Prelude.{◌≡◌};
ghost use Rattle.std.specs.Option.{option_map};
ghost use Rattle.std.specs.Str.{bytes_eq};
ghost use Rattle.cf_setup.specs.Named.{place_in};
ghost use Rattle.cf_handles.specs.Names.{name_of};

use cf_row::Name;
use cf_setup::Setup;

/// The name of what the setup has of that sort at that number: 0 attributes, 1 lanes, 2 triggers, 3 questions.
pub(crate) fn name_in(setup: &Setup, sort: u32, number: u32) -> Option<&Name>
    ensures { option_map (λ name. name.now) result ≡ name_of setup.now sort number }
{
    let number = number as usize;
    match sort {
        0 => Some(&setup.schema().attrs().get(number)?.name),
        1 => setup.lane_names().get(number),
        2 => setup.trigger_names().get(number),
        3 => setup.ask_names().get(number),
        _ => None,
    }
}

fn is_named(name: &Name, bytes: &[u8]) -> bool
    ensures { result ≡ bytes_eq name.now bytes.now }
{
    name.as_str().as_bytes() == bytes
}

fn place_of(names: &[Name], name: &[u8]) -> Option<usize>
    ensures { result ≡ place_in names.now name.now }
{
    names.iter().position(|other| is_named(other, name))
}

/// The number of the question of that name.
pub(crate) fn question_in(setup: &Setup, name: &[u8]) -> Option<u32>
    ensures { result ≡ place_in setup.now.ask_names name.now }
{
    match place_of(setup.ask_names(), name) {
        Some(place) => Some(place as u32),
        None => None,
    }
}
