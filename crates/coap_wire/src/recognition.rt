//! Iterators over the recognised options of a message, and the search for a critical one that is not (RFC 7252 section
//! 5.4).

ghost use Rattle.std.specs.Prelude.{◌≡◌};
ghost use Rattle.coap_wire.specs.Prelude.{AreOrdered, is_recognised, option_before, first_critical, coap_option};
ghost use Rattle.coap_wire.specs.Prelude.{known_options, checked_option, checked_options, YieldsFirstBy, item_count};

use crate::option::OptionRef;
use crate::option_numbers::URI_PATH;
use crate::option_table::kind;
use crate::options::Options;
use std::marker::Model;

/// Maximum length of a path segment in bytes (RFC 7252 section 5.10).
const MAX_SEGMENT: usize = 255;

/// Returns `true` if an option is recognised. `before` is the number of the option before it in the message, if there
/// is one.
// Uri-Path, which most requests have, needs no look at the table.
#[inline(always)]
#[tactic(auto, unfolding(crate::specs::Recognition::is_recognised, crate::specs::Recognition::kind_of))]
fn recognises(before: Option<u16>, option: &OptionRef) -> bool
    ensures { result ≡ is_recognised (option_before before) (coap_option option.now) }
{
    if option.number == URI_PATH {
        return option.value.len() <= MAX_SEGMENT;
    }
    recognises_by_table(before, option)
}

/// Returns `true` if an option is recognised, as `recognises` does.
#[tactic(auto, unfolding(crate::specs::Recognition::is_recognised))]
fn recognises_by_table(before: Option<u16>, option: &OptionRef) -> bool
    ensures { result ≡ is_recognised (option_before before) (coap_option option.now) }
{
    let Some(kind) = kind(option.number) else {
        return false;
    };
    let length = option.value.len();
    if length < usize::from(kind.min) || usize::from(kind.max) < length {
        return false;
    }
    kind.repeatable || before != Some(option.number)
}

/// Option of a message, and whether it is recognised.
#[derive(Clone, Copy)]
pub struct CheckedOption<'a> {
    /// Option, recognised or not.
    pub option: OptionRef<'a>,
    /// `true` if the option is recognised.
    pub is_recognised: bool,
}

/// Iterator over all options of a message, in order of number. Each item says whether the option is recognised.
/// Contracts see the list of the items that are left.
#[derive(Drop)]
pub struct CheckedOptions<'a> {
    before: Option<u16>,
    options: Options<'a>,
}

impl<'a> Model for CheckedOptions<'a> {
    ghost use Rattle.std.specs.Prelude.{List, unwrap_or};
    ghost use Rattle.coap_wire.specs.Message.{AreOrdered};
    ghost use Rattle.coap_wire.specs.Recognition.{CheckedOptionValue, checked_given, option_before};

    ghost Value = { List CheckedOptionValue };

    ghost view = { λ k. checked_given (option_before k.before) k.options };

    ghost invariant = { λ k. AreOrdered (unwrap_or k.before 0) k.options };
}

impl<'a> CheckedOptions<'a> {
    /// Returns an iterator over all options of a message.
    pub(crate) fn of_options(options: Options<'a>) -> CheckedOptions<'a>
        requires { AreOrdered 0 options }
        ensures { result ≡ checked_options options.entry }
    {
        CheckedOptions {
            before: None,
            options,
        }
    }
}

impl<'a> Iterator for CheckedOptions<'a> {
    type Item = CheckedOption<'a>;

    ghost next_gives = { YieldsFirstBy checked_option (λ os. os) };

    ghost remaining = { item_count (λ os. os) };

    #[tactic(auto, using(crate::proofs::RecognitionLaws::checked_turns))]
    #[inline(always)]
    fn next(&mut self) -> Option<CheckedOption<'a>> {
        let option = self.options.next()?;
        let is_recognised = recognises(self.before, &option);
        self.before = Some(option.number);
        Some(CheckedOption {
            option,
            is_recognised,
        })
    }
}

/// Iterator over the recognised options of a message, in order of number. Contracts see the list of those that are
/// left.
#[derive(Drop)]
pub struct RecognisedOptions<'a> {
    checked: CheckedOptions<'a>,
}

impl<'a> Model for RecognisedOptions<'a> {
    ghost use Rattle.std.specs.Prelude.{List};
    ghost use Rattle.coap_wire.specs.Message.{CoapOption};
    ghost use Rattle.coap_wire.specs.Recognition.{recognised_in};

    ghost Value = { List CoapOption };

    ghost view = { λ k. recognised_in k.checked };
}

impl<'a> RecognisedOptions<'a> {
    /// Returns an iterator over the recognised ones of all options of a message.
    pub(crate) fn of_options(options: Options<'a>) -> RecognisedOptions<'a>
        requires { AreOrdered 0 options }
        ensures { result ≡ known_options options.entry }
    {
        RecognisedOptions {
            checked: CheckedOptions::of_options(options),
        }
    }
}

impl<'a> Iterator for RecognisedOptions<'a> {
    type Item = OptionRef<'a>;

    ghost next_gives = { YieldsFirstBy coap_option (λ os. os) };

    ghost remaining = { item_count (λ os. os) };

    #[tactic(auto, using(crate::proofs::RecognitionLaws::option_turns))]
    fn next(&mut self) -> Option<OptionRef<'a>> {
        while let Some(checked) = self.checked.next() {
            if checked.is_recognised {
                return Some(checked.option);
            }
        }
        None
    }
}

/// Returns the number of the first critical option that is not recognised, or `None` if there is none.
#[tactic(auto, using(crate::proofs::RecognitionLaws::option_turns))]
pub(crate) fn first_unrecognised_critical(options: Options) -> Option<u16>
    requires { AreOrdered 0 options }
    ensures { result ≡ first_critical options.entry }
{
    for checked in CheckedOptions::of_options(options) {
        if checked.option.number % 2 == 1 && !checked.is_recognised {
            return Some(checked.option.number);
        }
    }
    None
}
