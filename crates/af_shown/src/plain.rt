// Which characters are shown as they are.
ghost use Rattle.std.specs.Prelude.{◌≡◌};
ghost use Rattle.af_shown.specs.Plain.{is_plain};

use ucd_category::GeneralCategory;

/// Whether a character is shown as it is: it is no control character, as ESC or U+009B, no format character, as U+202E, no
/// separator of lines or of paragraphs, and Unicode has assigned it.
pub fn is_plain(character: char) -> bool
    ensures { result ≡ is_plain character }
{
    match GeneralCategory::for_char(character) {
        GeneralCategory::Control | GeneralCategory::Format => false,
        GeneralCategory::LineSeparator | GeneralCategory::ParagraphSeparator => false,
        GeneralCategory::Surrogate | GeneralCategory::Unassigned => false,
        _ => true,
    }
}
