ghost use Rattle.std.specs.Prelude.{◌≡◌, ℕ, IfSome, List, ◌∷◌, ◌++◌, Option, true, false, Some};
ghost use Rattle.cli_line.specs.Given.{command_of};
ghost use Rattle.cli_line.specs.declared.commands.Command.{Command};
ghost use Rattle.cli_line.specs.Asking.{asks, request_of};
ghost use Rattle.cli_line.specs.Plain.{Use, are_plain, begins_with_hyphen, given_by, name_words, words_of_uses};
ghost use Rattle.cli_line.specs.declared.asking.Request.TheVariants as requests;

/// A law: words of the plain form ask for what they spell, so those that make a command ask for it.
pub fn plain_words_ask_for_what_they_spell()
    ensures spelled { (program name : List ℕ) (topic : Option (List ℕ)) (uses : List Use)
        → begins_with_hyphen name ≡ false
        → IfSome topic (λ word. begins_with_hyphen word ≡ false)
        → are_plain uses ≡ true
        → asks (program ∷ name_words name topic ++ words_of_uses uses)
        ≡ request_of (given_by name topic uses) }
    ensures command { (program name : List ℕ) (topic : Option (List ℕ)) (uses : List Use)
        (command : Command)
        → begins_with_hyphen name ≡ false
        → IfSome topic (λ word. begins_with_hyphen word ≡ false)
        → are_plain uses ≡ true
        → command_of (given_by name topic uses) ≡ Some command
        → asks (program ∷ name_words name topic ++ words_of_uses uses)
        ≡ requests.Command command }
{}
