// The manual's arithmetic, table by table and factor by factor, on what a table's rows say.
//
// Uses no crate. Document 01, "Held strength" (joints, held), "Required strength" (required), "Layout
// factor" (layout), "Deterioration factor" (deterioration) and "Score and verdict" (scores, verdicts), with
// the snow of document 02, request 1, what is left over of a score, request 4, the most for a house that was
// repaired, request 5, and the factor below a narrow storey, request 6; the definitions stand in specs/, a
// file a section. 000's tables are static arrays in the module that uses them, those of joints in one of
// their own (joint_tables), and are read by number (printed). Every function open to callers takes any
// numbers, and a definition says what it answers. The theorems, the laws for comparing two houses among
// them, are in proofs/Theorems.antt.
#![tactic(auto)]

mod deterioration;
mod held;
mod joint_tables;
mod joints;
mod layout;
mod printed;
mod required;
mod rows;
mod scores;
mod verdicts;

pub use deterioration::{Fraction, after_repair, deterioration_factor};
pub use held::wall_share;
pub use joints::joint_factor;
pub use layout::{band, floor_type, layout_factor};
pub use required::{is_narrow, narrow_factor, required_strength};
pub use rows::{Bands, House, HousePart, Items, Storey, Strengths, Wall};
pub use scores::{MOST_HELD, Quotient, limited, score, verdict};
pub use verdicts::Verdict;
