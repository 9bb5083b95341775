// What the two report programs have in common: the types of a list of deleted entries, counts with their nouns, and refusals
// and trouble in words.
#![tactic(auto)]

mod forms;
mod many;
mod refusal;
mod trouble;

pub use forms::{
    AGE, END, ENTRIES, ENTRY, ENTRY_FIELDS, FOLDER, FOLDER_FIELDS, FOLDERS, GONE, GONE_FIELDS,
    INTEGER, KEPT, KEPT_FIELDS, NO_ENTRY, NO_FOLDER, NONE,
};
pub use many::Many;
pub use refusal::{Refusal, Verdict, Words};
pub use trouble::Trouble;
