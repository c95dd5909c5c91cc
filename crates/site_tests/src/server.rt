//! Tests of sessions, and of the servers of one heap and of a site.

mod asking;
mod calling;
mod connection;
mod gathered;
mod long;
mod passing;
mod plain;
mod session;
mod transacting;
