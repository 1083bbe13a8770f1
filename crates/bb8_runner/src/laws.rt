//! Laws of the script language, each stated by a function without a body.
ghost use Rattle.std.specs.Prelude.{◌≡◌, ◌≢◌, Some, List, ℕ, All};
ghost use Rattle.bb8_runner.specs.Words.{Answer, Event, Figures, Settings};
ghost use Rattle.bb8_runner.specs.Grammar.{event_of, fields_of};
ghost use Rattle.bb8_runner.specs.Opening.{settings_of_line};
ghost use Rattle.bb8_runner.specs.Spelling.{SpellsEvent, SpellsSettings, FitsEvent, event_line};
ghost use Rattle.bb8_runner.specs.Text.{answer_text, state_text};

/// A line is the event that its fields spell, and no other line is an event.
pub fn one_spelling()
    ensures read { (line : List ℕ) (e : Event) → SpellsEvent (fields_of line) e
        → event_of line ≡ Some e }
    ensures spelled { (line : List ℕ) (e : Event) → event_of line ≡ Some e
        → SpellsEvent (fields_of line) e }
{}

/// A line is the configuration that its fields spell, and no other line is a configuration.
pub fn one_configuration()
    ensures read { (line : List ℕ) (s : Settings) → SpellsSettings (fields_of line) s
        → settings_of_line line ≡ Some s }
    ensures spelled { (line : List ℕ) (s : Settings) → settings_of_line line ≡ Some s
        → SpellsSettings (fields_of line) s }
{}

/// The line of an event is parsed as that event, so two different events have different lines.
pub fn distinct_lines()
    ensures own { (e : Event) → FitsEvent e → event_of (event_line e) ≡ Some e }
    ensures distinct { (e f : Event) → FitsEvent e → FitsEvent f → event_line e ≡ event_line f
        → e ≡ f }
{}

/// No result and no state line contains a line feed, so each is one line of the output.
pub fn single_lines()
    ensures answers { (a : Answer) → All (λ b. b ≢ 10) (answer_text a) }
    ensures states { (f : Figures) → All (λ b. b ≢ 10) (state_text f) }
{}
