//! Requests, with the replies of redis-server 7.0.15 to them, or zqueue's own where it differs: it
//! has one text for each reason, one database, and no more of CLIENT than its table says.

use sha2::{Digest, Sha256};
use std::alloc::Global;
use std::process::Abort;
use std::test::Fail;
use zq_client::{ClientState, Moment, Password, Profile};
use zq_resp::{Reader, Request, write_reply};

/// What is said where the site has to answer.
const SITE: &str = "(site)";

const OK: &str = "+OK\r\n";

const WORDS: &str = "-ERR wrong number of arguments\r\n";

const NOAUTH: &str = "-NOAUTH Authentication required.\r\n";

const WRONG: &str = "-WRONGPASS invalid username-password pair or user is disabled.\r\n";

const NAME: &str = "-ERR Client names cannot contain spaces, newlines or special characters.\r\n";

const PROTOCOL: &str = "-NOPROTO unsupported protocol version\r\n";

const HELLO: &str = "-ERR Syntax error in HELLO\r\n";

const SUBCOMMAND: &str = "-ERR unknown subcommand\r\n";

const SERVER: &str = "*14\r\n$6\r\nserver\r\n$6\r\nzqueue\r\n$7\r\nversion\r\n$5\r\n1.2.3\r\n\
    $5\r\nproto\r\n:2\r\n$2\r\nid\r\n:7\r\n$4\r\nmode\r\n$10\r\nstandalone\r\n\
    $4\r\nrole\r\n$6\r\nmaster\r\n$7\r\nmodules\r\n*0\r\n";

const HELLO_NOAUTH: &str = "-NOAUTH HELLO must be called with the client already authenticated, \
    otherwise the HELLO AUTH <user> <pass> option can be used to authenticate the client and \
    select the RESP protocol version at the same time\r\n";

const NO_PASSWORD: &str = "-ERR AUTH <password> called without any password configured for the \
    default user. Are you sure your configuration is correct?\r\n";

/// A connection that needs no password. `^` stands for a space in a word.
const OPEN: &[(&str, &str)] = &[
    ("PING", SITE),
    ("ping hi", SITE),
    ("ZADD c:q 1 a", SITE),
    ("ECHO hi", "$2\r\nhi\r\n"),
    ("echo ", "$0\r\n\r\n"),
    ("ECHO", WORDS),
    ("SELECT 0", OK),
    ("SELECT 00", OK),
    ("SELECT 1", "-ERR DB index is out of range\r\n"),
    ("SELECT 16", "-ERR DB index is out of range\r\n"),
    ("SELECT -1", "-ERR DB index is out of range\r\n"),
    ("SELECT x", "-ERR value is not an integer\r\n"),
    ("SELECT", WORDS),
    ("TIME", "*2\r\n$10\r\n1795750971\r\n$6\r\n412394\r\n"),
    ("TIME x", WORDS),
    ("RESET", "+RESET\r\n"),
    ("RESET x", WORDS),
    ("CLIENT ID", ":7\r\n"),
    ("CLIENT GETNAME", "$-1\r\n"),
    ("CLIENT SETNAME me", OK),
    ("client getname", "$2\r\nme\r\n"),
    ("CLIENT SETNAME ", OK),
    ("CLIENT GETNAME", "$-1\r\n"),
    ("CLIENT SETNAME a^b", NAME),
    ("CLIENT SETNAME a\nb", NAME),
    ("CLIENT SETNAME \x7f", NAME),
    ("CLIENT SETNAME a-b:c_1~", OK),
    ("CLIENT GETNAME", "$8\r\na-b:c_1~\r\n"),
    ("RESET", "+RESET\r\n"),
    ("CLIENT GETNAME", "$-1\r\n"),
    ("CLIENT SETINFO LIB-NAME x", OK),
    ("CLIENT ID 1", WORDS),
    ("CLIENT SETNAME", WORDS),
    ("CLIENT FOO", SUBCOMMAND),
    ("CLIENT", WORDS),
    ("CLIENT NO-EVICT ON", SUBCOMMAND),
    ("CLIENT REPLY ON", SUBCOMMAND),
    ("HELLO", SERVER),
    ("HELLO 2 SETNAME me", SERVER),
    ("CLIENT GETNAME", "$2\r\nme\r\n"),
    ("HELLO 2 AUTH default whatever SETNAME you", SERVER),
    ("CLIENT GETNAME", "$3\r\nyou\r\n"),
    ("HELLO 3 SETNAME three", PROTOCOL),
    ("HELLO 4", PROTOCOL),
    ("HELLO 1", PROTOCOL),
    ("HELLO 4 SETNAME x", PROTOCOL),
    (
        "HELLO x",
        "-ERR Protocol version is not an integer or out of range\r\n",
    ),
    ("HELLO 2 SETNAME", HELLO),
    ("HELLO 2 FOO", HELLO),
    ("HELLO 2 AUTH default", HELLO),
    ("HELLO 2 SETNAME a^b", NAME),
    ("HELLO 2 AUTH who x", WRONG),
    ("AUTH x", NO_PASSWORD),
    ("AUTH default x", OK),
    ("AUTH who x", WRONG),
    ("AUTH", WORDS),
    ("AUTH a b c", "-ERR syntax error\r\n"),
    ("PING", SITE),
    ("COMMAND COUNT", ":28\r\n"),
    ("COMMAND DOCS nosuch", "*0\r\n"),
    ("COMMAND FOO", SUBCOMMAND),
    ("CONFIG GET save", "*2\r\n$4\r\nsave\r\n$0\r\n\r\n"),
    (
        "CONFIG GET appendonly",
        "*2\r\n$10\r\nappendonly\r\n$2\r\nno\r\n",
    ),
    (
        "CONFIG GET SAVE appendonly",
        "*4\r\n$10\r\nappendonly\r\n$2\r\nno\r\n$4\r\nsave\r\n$0\r\n\r\n",
    ),
    ("CONFIG GET nosuch", "*0\r\n"),
    ("CONFIG GET requirepass", "*0\r\n"),
    (
        "CONFIG GET *",
        "*10\r\n$10\r\nappendonly\r\n$2\r\nno\r\n$9\r\ndatabases\r\n$1\r\n1\r\n\
        $9\r\nmaxmemory\r\n$5\r\n65536\r\n$4\r\nsave\r\n$0\r\n\r\n$7\r\ntimeout\r\n$3\r\n300\r\n",
    ),
    ("CONFIG GET", SUBCOMMAND),
    ("CONFIG", WORDS),
    ("CONFIG SET timeout 1", SUBCOMMAND),
    (
        "INFO replication",
        "$48\r\n# Replication\r\nrole:master\r\nconnected_slaves:0\r\n\r\n",
    ),
    (
        "INFO clients server",
        "$151\r\n# Server\r\nredis_version:7.0.0\r\nzqueue_version:1.2.3\r\n\
        redis_mode:standalone\r\nuptime_in_seconds:61\r\n\r\n\
        # Clients\r\nconnected_clients:3\r\nblocked_clients:0\r\n\r\n",
    ),
    ("INFO nosuch", "$0\r\n\r\n"),
    ("QUIT", OK),
    ("PING", "-ERR the connection ends\r\n"),
];

/// A connection that has to show the password `sesame`.
const LOCKED: &[(&str, &str)] = &[
    ("PING", NOAUTH),
    ("ZADD l:q 1 a", NOAUTH),
    ("FOO", NOAUTH),
    ("CLIENT ID", NOAUTH),
    ("SELECT 0", NOAUTH),
    ("ECHO x", NOAUTH),
    ("INFO", NOAUTH),
    ("HELLO", HELLO_NOAUTH),
    ("HELLO 2", HELLO_NOAUTH),
    ("HELLO 4", PROTOCOL),
    ("AUTH wrong", WRONG),
    ("AUTH default wrong", WRONG),
    ("AUTH who sesame", WRONG),
    ("AUTH ", WRONG),
    ("AUTH sesame1", WRONG),
    ("AUTH Sesame", WRONG),
    ("PING", NOAUTH),
    ("AUTH sesame", OK),
    ("PING", SITE),
    ("AUTH wrong", WRONG),
    ("PING", SITE),
    ("AUTH default sesame", OK),
    ("RESET", "+RESET\r\n"),
    ("PING", NOAUTH),
    ("HELLO 2 AUTH default wrong", WRONG),
    ("PING", NOAUTH),
    ("HELLO 2 AUTH default sesame SETNAME me", SERVER),
    ("CLIENT GETNAME", "$2\r\nme\r\n"),
    ("RESET", "+RESET\r\n"),
    ("AUTH", WORDS),
    ("AUTH a b c", "-ERR syntax error\r\n"),
    ("AUTH default sesame", OK),
    ("PING", SITE),
    ("QUIT", OK),
    ("AUTH sesame", "-ERR the connection ends\r\n"),
];

const MOMENT: Moment = Moment {
    time: 1_795_750_971_412_394,
    uptime: 61,
    clients: 3,
    connections: 8,
    requests: 1_000,
};

/// A site with this password, if it has one.
fn profile(password: Option<&[u8]>) -> Profile {
    Profile {
        password: password.map(|text| Password::of_digest(Sha256::digest(text))),
        version: "1.2.3",
        commands: 28,
        max_memory: 65_536,
        timeout: 300,
    }
}

/// The request of a line's words.
fn request(alloc: Global, line: &str) -> Result<Request, Fail> {
    let count = line.split(' ').count();
    let mut bytes = Vec::new(alloc);
    bytes.extend_from_slice(format!(in alloc; "*{count}\r\n")?.as_bytes())?;
    for word in line.split(' ') {
        let length = word.len();
        bytes.extend_from_slice(format!(in alloc; "${length}\r\n{word}\r\n")?.as_bytes())?;
    }
    for byte in &mut bytes {
        if *byte == b'^' {
            *byte = b' ';
        }
    }
    let Ok(mut requests) = Reader::new().feed(alloc, bytes.as_slice()) else {
        return Err("no request".into());
    };
    Ok(requests.pop().ok_or("no request")?)
}

/// The bytes that a connection answers to a line.
fn ask(
    alloc: Global,
    client: &mut ClientState,
    profile: &Profile,
    line: &str,
) -> Result<Vec<u8>, Fail> {
    let request = request(alloc, line)?;
    let mut bytes = Vec::new(alloc);
    match client.answer(alloc, profile, &MOMENT, &request) {
        Some(reply) => write_reply(&mut bytes, &reply)?,
        None => bytes.extend_from_slice(SITE.as_bytes())?,
    }
    Ok(bytes)
}

/// Asks line for line on one connection.
fn ask_all(
    rt: &impl Abort,
    alloc: Global,
    profile: &Profile,
    rows: &[(&str, &str)],
) -> Result<(), Fail> {
    let mut client = ClientState::new(alloc, 7, profile);
    for (line, wanted) in rows {
        let reply = ask(alloc, &mut client, profile, line)?;
        assert!(rt; reply.as_slice() == wanted.as_bytes(), "{line}");
    }
    Ok(())
}

#[test]
fn requests_have_the_replies_of_the_table(rt: HostRuntime) -> Result<(), Fail> {
    ask_all(&rt, rt.alloc(), &profile(None), OPEN)?;
    ask_all(&rt, rt.alloc(), &profile(Some(b"sesame")), LOCKED)
}

#[test]
fn ten_wrong_passwords_end_a_connection(rt: HostRuntime) -> Result<(), Fail> {
    let alloc = rt.alloc();
    let profile = profile(Some(b"sesame"));
    let mut client = ClientState::new(alloc, 7, &profile);
    for turn in 0..10 {
        assert!(rt; !client.is_over(), "{turn}");
        let reply = ask(alloc, &mut client, &profile, "AUTH wrong")?;
        assert!(rt; reply.as_slice() == WRONG.as_bytes());
        // RESET gives no more of them.
        if turn < 9 {
            ask(alloc, &mut client, &profile, "RESET")?;
        }
    }
    assert!(rt; client.is_over());
    let reply = ask(alloc, &mut client, &profile, "AUTH sesame")?;
    assert!(rt; reply.as_slice() == b"-ERR the connection ends\r\n".as_slice());
    Ok(())
}

/// What `printf %s sesame | sha256sum` writes.
const WRITTEN: &[u8] = b"d0c04f4b1951e4aeaaec8223ed2039e542f3aae805a6fa7f6d794e5afff5d272  -\n";

/// What is no digest: of 62 and 66 digits, behind a blank, and with a letter that is none.
const NO_DIGESTS: [&[u8]; 5] = [
    b"",
    b"d0c04f4b1951e4aeaaec8223ed2039e542f3aae805a6fa7f6d794e5afff5d2",
    b"d0c04f4b1951e4aeaaec8223ed2039e542f3aae805a6fa7f6d794e5afff5d27200",
    b" d0c04f4b1951e4aeaaec8223ed2039e542f3aae805a6fa7f6d794e5afff5d272",
    b"g0c04f4b1951e4aeaaec8223ed2039e542f3aae805a6fa7f6d794e5afff5d272",
];

#[test]
fn a_digest_is_read_as_it_is_written(rt: HostRuntime) {
    for end in [64, 65, WRITTEN.len()] {
        let read = Password::read(&WRITTEN[..end]);
        assert!(rt; matches!(read, Some(password) if password.is(b"sesame")));
    }
    for bytes in NO_DIGESTS {
        assert!(rt; Password::read(bytes).is_none());
    }
}
