// The names that have a meaning: the top keys of a scenario, the fields of its steps, and the commands that are built in.
#![tactic(auto)]

ghost use Rattle.std.specs.Prelude.{◌≡◌};
ghost use Rattle.refusal.specs.Base.{one_of};
ghost use Rattle.meaning.specs.Meaning.{step_fields, built_in_steps};
ghost use Rattle.meaning.specs.Meanings.{top_keys};

use item::{one_of, same_bytes};

/// The fields of a step that are its own: all keys but that of its command.
#[derive(Clone, Copy, Debug, PartialEq, Eq)]
pub enum StepField {
    Name,
    Id,
    Timeout,
    Continues,
    Expect,
}

impl StepField {
    ghost use Rattle.meaning.specs.Fields.{step_field};

    /// The field that a key is, if it is one.
    // Word by word, as top's `DefaultKey`. As a call it takes some sixty instructions more for each step.
    #[tactic(auto, unfolding(crate::specs::Fields::step_field, refusal::specs::Base::bytes))]
    #[inline(always)]
    pub fn of(key: &[u8]) -> Option<StepField>
        ensures { result ≡ step_field key.now }
    {
        if same_bytes(key, b"name") {
            Some(StepField::Name)
        } else if same_bytes(key, b"id") {
            Some(StepField::Id)
        } else if same_bytes(key, b"timeout") {
            Some(StepField::Timeout)
        } else if same_bytes(key, b"continue_on_error") {
            Some(StepField::Continues)
        } else if same_bytes(key, b"expect") {
            Some(StepField::Expect)
        } else {
            None
        }
    }
}

/// Whether a key of the whole scenario has a meaning.
#[tactic(auto, unfolding(refusal::specs::Base::bytes, refusal::specs::Base::one_of, crate::specs::Meanings::top_keys))]
pub fn is_top_key(key: &[u8]) -> bool
    ensures { result ≡ one_of key.now top_keys }
{
    one_of(
        key,
        &[
            b"schema",
            b"name",
            b"description",
            b"image",
            b"tags",
            b"setup",
            b"defaults",
            b"fail_on",
            b"steps",
        ],
    )
}

/// Whether a key of a step is one of its own fields, and so names no command.
#[tactic(auto, using(crate::proofs::Fields::field_listed))]
pub fn is_step_field(key: &[u8]) -> bool
    ensures { result ≡ one_of key.now step_fields }
{
    StepField::of(key).is_some()
}

/// Whether a command is built in, so that it needs no name in a list of commands.
#[tactic(auto, unfolding(refusal::specs::Base::bytes, refusal::specs::Base::one_of, crate::specs::Meaning::built_in_steps))]
pub fn is_built_in(key: &[u8]) -> bool
    ensures { result ≡ one_of key.now built_in_steps }
{
    one_of(
        key,
        &[b"repeat", b"set", b"delay", b"expect_not", b"ui.expect"],
    )
}
