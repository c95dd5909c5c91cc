//! AUTH, and what a connection shows of a password.

ghost use Rattle.std.specs.Prelude.{codes, ◌≡◌};
ghost use Rattle.std.specs.Str.{bytes_eq};
ghost use Rattle.zq_client.specs.Auth as auth;
ghost use Rattle.zq_client.specs.Outcomes.{IsTold};
ghost use Rattle.zq_words.specs.Words.{views};

use crate::client_state::ClientState;
use crate::password::Password;
use crate::profile::Profile;
use crate::texts::ok_reply;
use crate::why::Why;
use zq_resp::Reply;
use zq_words::Refused;

/// The one user that there is.
const USER: &[u8] = b"default";

/// AUTH, with these words behind it: a password, or a user and a password.
pub fn auth(client: &mut ClientState, profile: &Profile, words: &[Vec<u8>]) -> Reply
    ensures { IsTold (auth.auth profile.now.password client.old (views words.now)) client.new
        result }
{
    match words {
        [] => Refused::Words.reply(),
        [password] => show(client, profile, password),
        [user, password] => enter(client, profile, user, password),
        _ => Refused::Syntax.reply(),
    }
}

/// A password alone is the one of the user that there is, where there is a password to show.
fn show(client: &mut ClientState, profile: &Profile, password: &[u8]) -> Reply
    ensures { IsTold (auth.show profile.now.password client.old password.now) client.new result }
{
    match &profile.password {
        None => Why::NoPassword.reply(),
        Some(_) => enter(client, profile, USER, password),
    }
}

/// A connection enters as this user, by this password.
fn enter(client: &mut ClientState, profile: &Profile, user: &[u8], password: &[u8]) -> Reply
    ensures { IsTold (auth.enter profile.now.password client.old user.now password.now) client.new
        result }
{
    if is_right(&profile.password, user, password) {
        client.know();
        ok_reply()
    } else {
        refuse(client, profile)
    }
}

/// A wrong password, or a user that is not there. Where there is a password to show it counts.
pub fn refuse(client: &mut ClientState, profile: &Profile) -> Reply
    ensures { IsTold (auth.refuse profile.now.password client.old) client.new result }
{
    if profile.password.is_some() {
        client.miss();
    }
    Why::WrongPassword.reply()
}

/// Whether this is the user that there is, and the password is right. With no password to show any
/// is.
pub fn is_right(password: &Option<Password>, user: &[u8], text: &[u8]) -> bool
    ensures { result ≡ auth.is_right password.now user.now text.now }
{
    // Both are looked at, whatever the first is.
    let is_user = is_default(user);
    is_shown(password, text) && is_user
}

fn is_default(user: &[u8]) -> bool
    ensures { result ≡ bytes_eq user.now (codes "default") }
{
    user == USER
}

/// Whether the text is the password, or none is to be shown.
fn is_shown(password: &Option<Password>, text: &[u8]) -> bool
    ensures { result ≡ auth.is_shown password.now text.now }
{
    match password {
        None => true,
        Some(password) => password.is(text),
    }
}
