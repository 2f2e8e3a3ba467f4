//! What the bars look like, on light and on dark, and what they mean.
ghost use Rattle.std.specs.Prelude.{◌≡◌, ◌++◌, OnOk};
ghost use Rattle.bridge_pictures.specs.Look as spec;

use seq_circle::NoMemory;
use tool_text::put;

// The colours on light and on dark, the sheet, and what the bars mean, at the top.
const LOOK: &[u8] =
    b"<style>.sheet{fill:#fff}text{font:12px monospace;fill:#222}.panel{font-weight:bold}.at{fill:#777;text-anchor:middle}line{stroke:#999;stroke-width:1}.flight{fill:#6fa8dc}.window{fill:#1f7a3a}.fell{fill:#d23c3c;fill-opacity:.45}.lost{fill:#d23c3c}@media (prefers-color-scheme:dark){.sheet{fill:#16181c}text{fill:#ddd}.at{fill:#999}line{stroke:#777}.flight{fill:#3d78b4}.window{fill:#5fd07f}}</style><rect class='sheet' width='100%' height='100%'/>\n<rect class='window' x='40' y='17' width='24' height='3'/><text x='70' y='24'>window</text><rect class='flight' x='150' y='12' width='24' height='12'/><text x='180' y='24'>in flight</text><rect class='fell' x='280' y='12' width='24' height='12'/><text x='310' y='24'>the window fell</text><rect class='lost' x='450' y='15' width='5' height='6'/><text x='462' y='24'>sent here, never processed</text>\n";

/// Puts the style of the windows, their sheet, and what the bars mean.
#[tactic(auto, unfolding(crate::specs::Look::look))]
pub(crate) fn put_look(text: &mut Vec<u8>) -> Result<(), NoMemory>
    ensures { OnOk result (text.new.items ≡ text.old.items ++ spec.look) }
{
    put(text, LOOK)
}
