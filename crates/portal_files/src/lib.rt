//! Reads the files that an operator writes: plans and settings, in TOML. Writes what the counter prints: the
//! print file of a batch, and the takings report. Also the local dates in the zone of the settings.
#![tactic(auto)]

mod amounts;
mod days;
mod document;
mod fault;
mod fields;
mod laws;
mod minutes;
mod plans;
mod print_file;
mod report;
mod settings;
mod settings_fault;
mod settings_file;
mod sheet;

pub use days::{day_text, local_day, local_time, read_day};
pub use fault::FileFault;
pub use laws::{
    file_fixes_plans, file_fixes_settings, rule_fixes_days, sheet_fixes_print_file,
    takings_are_added, takings_fix_report, takings_vectors_hold, text_names_day,
};
pub use plans::read_plans;
pub use print_file::print_batch;
pub use report::takings_text;
pub use settings::Settings;
pub use settings_fault::{SettingsFault, SettingsKey, find_settings_fault};
pub use settings_file::{read_settings, sample_settings};
pub use sheet::BatchSheet;
