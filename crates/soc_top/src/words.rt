ghost use Rattle.std.specs.Prelude.{◌≡◌};
ghost use Rattle.std.specs.Option.{option_map};
ghost use Rattle.soc_top.specs.Words as spec;

/// The two files of a command: a design that is loaded, and a text that is saved.
#[derive(Drop)]
pub struct BuildFiles<'a> {
    pub design: &'a str,
    pub text: &'a str,
}

/// The three files of a command: a design and a stimulus that are loaded, and a text that is saved.
#[derive(Drop)]
pub struct SimFiles<'a> {
    pub design: &'a str,
    pub stimulus: &'a str,
    pub text: &'a str,
}

fn is_file_name(word: &str) -> bool
    ensures { result ≡ spec.is_file_name word.now }
{
    !word.starts_with('-')
}

/// The file of a command's words, where they are the command and a file name: a word that doesn't begin with
/// `-`.
pub fn file_of<'a>(command: &str, words: &'a [String]) -> Option<&'a str>
    ensures { option_map (λ name. name.now) result ≡ spec.file_of command.now (spec.words_of words.now) }
{
    let [word, name] = words else {
        return None;
    };
    if word.as_str() == command && is_file_name(name.as_str()) {
        Some(name.as_str())
    } else {
        None
    }
}

/// The files of a command's words, where they are the command and two file names.
pub fn files_of<'a>(command: &str, words: &'a [String]) -> Option<BuildFiles<'a>>
    ensures { option_map (λ names. spec.build_files names.design.now names.text.now) result ≡
        spec.files_of command.now (spec.words_of words.now) }
{
    let [word, design, text] = words else {
        return None;
    };
    if word.as_str() == command && is_file_name(design.as_str()) && is_file_name(text.as_str()) {
        Some(BuildFiles {
            design: design.as_str(),
            text: text.as_str(),
        })
    } else {
        None
    }
}

/// The files of a command's words, where they are the command and three file names.
pub fn three_of<'a>(command: &str, words: &'a [String]) -> Option<SimFiles<'a>>
    ensures { option_map (λ names. spec.sim_files names.design.now names.stimulus.now names.text.now) result ≡
        spec.three_of command.now (spec.words_of words.now) }
{
    let [word, design, stimulus, text] = words else {
        return None;
    };
    if word.as_str() == command
        && is_file_name(design.as_str())
        && is_file_name(stimulus.as_str())
        && is_file_name(text.as_str())
    {
        Some(SimFiles {
            design: design.as_str(),
            stimulus: stimulus.as_str(),
            text: text.as_str(),
        })
    } else {
        None
    }
}
