//! The server: sessions, the settings of sites, serving them, and the drill, each from the library
//! where it stands.
//!
//! A program that serves needs no other library of the queue. What these functions promise, and the
//! definitions that their contracts cite, are those of the libraries below: `zq_client`,
//! `zq_session`, `zq_settings`, `zq_serve`, `zq_site` and `zq_drill`.
#![tactic(auto)]

pub use zq_client::Password;
pub use zq_drill::{DrillFault, drill};
pub use zq_serve::{Cause, Memory, ServeFault, serve};
pub use zq_session::{Answers, End, Passing, Plain, SessionFault, session, status};
pub use zq_settings::{
    LogLevel, Settings, SettingsFault, SiteSettings, Why, settings, site_settings,
};
pub use zq_site::{Ending, serve_site};
