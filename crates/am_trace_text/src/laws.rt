//! What the texts of traces are.

ghost use Rattle.std.specs.Prelude.{◌≡◌, ◌≢◌, ◌↔◌, List, ℕ, false, true};
ghost use Rattle.am_record.specs.Events.{Event};
ghost use Rattle.am_trace_text.specs.Lines.{AreEvents, IsBadLine, IsEvent, IsTextOf, event_words, event_lines};
ghost use Rattle.am_trace_text.specs.Lines.{trace_text};
ghost use Rattle.am_trace_text.specs.Headers.{can_be_given};
ghost use Rattle.am_trace_text.specs.Versions.{needs_three, version_needed};
ghost use Rattle.am_trace_text.specs.declared.header.Header.TheVariants.{Profile, Limits};
ghost use Rattle.am_trace_text.specs.declared.store_limits.StoreLimits.{StoreLimits};
ghost use Rattle.am_trace_text.specs.declared.version.Version.{Version};
ghost use Rattle.am_trace_text.specs.declared.version.Version.TheVariants.{One, Two, Three};

use am_line_text::words_are_fields;

/// A text is that of one trace under one header, and either the text of a trace or bad in one line.
pub fn traces_are_texts()
    ensures one_trace { (text : List ℕ) (a b : List Event) → IsTextOf text a → IsTextOf text b → a ≡ b }
    ensures one_header { (text : List ℕ) (a b : List Event) (h : IsTextOf text a) (k : IsTextOf text b) →
        h.header ≡ k.header }
    ensures not_bad { (text : List ℕ) (trace : List Event) (n : ℕ) → IsTextOf text trace → IsBadLine text n → ⊥ }
    ensures one_line { (text : List ℕ) (m n : ℕ) → IsBadLine text m → IsBadLine text n → m ≡ n }
{
    words_are_fields();
}

/// All versions but the first have the lines of version 2, of the same events. Version 3 has lines of more events.
pub fn lines_are_alike()
    ensures words { (v : Version) (e : Event) → v ≢ One → event_words v e ≡ event_words Two e }
    ensures lines { (v : Version) (trace : List Event) → v ≢ One → event_lines v trace ≡ event_lines Two trace }
    ensures events { (v : Version) (e : Event) → v ≢ One → IsEvent Two e → IsEvent v e }
    ensures of_two { (e : Event) → IsEvent Two e ↔ (IsEvent Three e × (needs_three e ≡ false)) }
{}

/// The text of a trace in the version that it needs is the text of that trace, and that version is the second where
/// that can write it. So is its text with the limits of its store, where a store can be given them.
pub fn needed_version_writes()
    ensures text { (trace : List Event) →
        AreEvents Three trace → IsTextOf (trace_text (Profile (version_needed trace)) trace) trace }
    ensures second { (trace : List Event) → AreEvents Two trace → version_needed trace ≡ Two }
    ensures limits { (limits : StoreLimits) (trace : List Event) → can_be_given limits ≡ true →
        AreEvents Three trace → IsTextOf (trace_text (Limits limits) trace) trace }
{}
