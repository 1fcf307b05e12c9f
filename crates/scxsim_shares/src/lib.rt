//! The shares of groups in a picture, step by step: the time that each group ran, and the time that was due to it by
//! weights and quotas. `Shares` adds them up as the run goes, and `Portions` averages them. Beside them, the shades of
//! columns: by the tasks that ran there, and by how full they are.
#![tactic(auto)]

mod group_shares;
mod groups;
mod levels;
mod portions;
mod quotas;
mod shades;
mod shares;

pub use levels::{LEVELS, Level, Levels};
pub use portions::{PARTS, Portions, Share};
pub use shades::{Shade, Shades};
pub use shares::{Reweighed, Shares, Spent};
