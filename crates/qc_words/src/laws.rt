//! Laws of words, each the contract of a function with nothing to do.

ghost use Rattle.std.specs.Prelude.{◌≡◌, ◌++◌, ◌∷◌, List, Some, true};
ghost use Rattle.std.specs.List.{list_all};
ghost use Rattle.qc_words.specs.Askable.{IsAskable};
ghost use Rattle.qc_words.specs.Forms.{Form, Part, Text, Values, parts_of, values_of};
ghost use Rattle.qc_words.specs.Matching.{IsForm, IsTaken};
ghost use Rattle.qc_words.specs.Said.{IsOptionName, is_joined, is_known, is_whole, said_apart, said_joined};
ghost use Rattle.qc_words.specs.Words.{AskedOf, asked};
ghost use Rattle.qc_words.specs.Written.{words_in};

/// What words ask has names that aren't empty and don't begin with `-`, one to
/// eight workers, one to 500 transactions, and a seed up to 65,536.
pub fn words_ask_within_limits()
    ensures { (words : List Text) (a : AskedOf) → asked words ≡ Some a → IsAskable a }
{}

/// All that can be asked is asked by its words.
pub fn words_are_read_as_written()
    ensures { (a : AskedOf) → IsAskable a → asked (words_in a) ≡ Some a }
{}

/// Each word behind a command is a value or names one of its options. So an
/// empty word, `--`, `-h`, `--help` and an abbreviation are refused wherever
/// they stand.
pub fn words_are_values_and_options()
    ensures { (form : Form) (words : List Text) (values : Values)
        → values_of form words ≡ Some values → list_all (is_known form) words ≡ true }
{}

/// An option as one word asks what it asks as two, wherever it stands.
pub fn options_are_one_word_or_two()
    ensures { (name value : Text) → IsOptionName name → (before after : List Text)
        → asked (before ++ (said_apart name value ++ after)) ≡ asked (before ++ (said_joined name value ++ after)) }
{}

/// An option with its value joined stands anywhere behind the command: it may
/// change places with a value, or with another such option, and the same is
/// asked.
pub fn options_stand_anywhere()
    ensures { (option word : Text) → is_joined option ≡ true → is_whole word ≡ true
        → (command : Text) (before after : List Text) → list_all is_whole before ≡ true
        → asked (command ∷ (before ++ (option ∷ word ∷ after)))
        ≡ asked (command ∷ (before ++ (word ∷ option ∷ after))) }
{}

/// Words that have a form are taken by `clap`, as the command of that form, with
/// the same values. So `clap` fails at them only for want of memory.
pub fn words_of_a_form_are_taken_by_clap()
    ensures { (form : Form) → IsForm form → (words : List Text) (parts : List Part)
        → parts_of form words ≡ Some parts → IsTaken form words parts }
{}
