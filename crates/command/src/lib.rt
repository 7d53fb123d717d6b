// One message handled: its errors and those of its fields, what they do to the settings and the page, and the reply. The
// definitions that the contracts cite stand in specs/.
#![tactic(auto)]

mod answer;
mod command;
mod errors;
mod fields;
mod number;
mod payload;
mod place;
mod refused;
mod rights;
mod settings;

pub use answer::{Answer, answer_over};
pub use command::{Command, Subject, subject_of};
pub use refused::{answer_refused, opening_error};
pub use rights::Rights;
pub use settings::{Settings, settings_from, settings_usable};
