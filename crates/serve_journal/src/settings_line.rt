//! The settings of a server, on one line.

use serve_options::{Address, Options, Servers, release_of};
use std::fmt;

/// Shows what a server was started with, as options that say the same.
#[derive(Clone, Copy)]
pub struct SettingsLine<'a> {
    pub options: &'a Options<'a>,
    /// The port at which it listens for clients.
    pub port: u16,
}

impl<'a> SettingsLine<'a> {
    fn put_servers<W: fmt::Write>(&self, f: &mut fmt::Formatter<W>) -> fmt::Result {
        match &self.options.servers {
            Servers::Leader(leader) => write!(f, "--leader {leader}"),
            Servers::Any(servers) => {
                f.write_str("--servers ")?;
                put_list(f, servers.as_slice())
            }
        }
    }

    fn put_limits<W: fmt::Write>(&self, f: &mut fmt::Formatter<W>) -> fmt::Result {
        let workers = self.options.limits.workers();
        let batch = self.options.limits.batch();
        write!(f, " --workers {workers} --batch {batch}")?;
        if let Some(most) = self.options.max_clients {
            write!(f, " --max-clients {most}")?;
        }
        if let Some(most) = self.options.max_per_address {
            write!(f, " --max-per-address {most}")?;
        }
        let Options {
            tick,
            init_limit,
            sync_limit,
            checkpoint,
            ..
        } = self.options;
        write!(
            f,
            " --tick {tick} --init-limit {init_limit} --sync-limit {sync_limit} --checkpoint {checkpoint}"
        )?;
        self.put_sessions(f)
    }

    // What clients are allowed.
    fn put_sessions<W: fmt::Write>(&self, f: &mut fmt::Formatter<W>) -> fmt::Result {
        let Options {
            max_under_way,
            max_watches,
            unconnected,
            words,
            ..
        } = self.options;
        let timeouts = self.options.timeouts;
        let least = timeouts.least();
        let greatest = timeouts.greatest();
        write!(
            f,
            " --min-session-timeout {least} --max-session-timeout {greatest} --max-under-way {max_under_way}"
        )?;
        write!(
            f,
            " --max-watches {max_watches} --unconnected {unconnected} --words {words}"
        )
    }

    // The super user, with an `x` in place of the hash, as getACL shows digests to others.
    fn put_super<W: fmt::Write>(&self, f: &mut fmt::Formatter<W>) -> fmt::Result {
        let Some(digest) = self.options.super_digest else {
            return Ok(());
        };
        match digest.split_once(':') {
            None => Ok(()),
            Some((user, _)) => write!(f, " --super-digest {user}:x"),
        }
    }

    fn put_rest<W: fmt::Write>(&self, f: &mut fmt::Formatter<W>) -> fmt::Result {
        if let Some(seconds) = self.options.give_up {
            write!(f, " --give-up {seconds}")?;
        }
        if let Some(address) = self.options.metrics {
            write!(f, " --metrics {address}")?;
        }
        if let Some(counter) = self.options.first_counter {
            let counter = counter.number();
            write!(f, " --counter {counter}")?;
        }
        self.put_super(f)?;
        if let Some(file) = self.options.secret_file {
            write!(f, " --secret-file {file}")?;
        }
        if let Some(file) = self.options.record {
            write!(f, " --record {file}")?;
        }
        Ok(())
    }
}

// Writes addresses with commas between.
fn put_list<W: fmt::Write>(f: &mut fmt::Formatter<W>, addresses: &[Address<'_>]) -> fmt::Result {
    let mut is_first = true;
    for address in addresses {
        if !is_first {
            f.write_str(",")?;
        }
        is_first = false;
        write!(f, "{address}")?;
    }
    Ok(())
}

impl<'a> fmt::Display for SettingsLine<'a> {
    fn fmt<W: fmt::Write>(&self, f: &mut fmt::Formatter<W>) -> fmt::Result {
        self.put_servers(f)?;
        let options = self.options;
        let client = Address {
            host: options.client.host,
            port: self.port,
        };
        let id = options.server_id.number();
        let dialect = release_of(options.dialect);
        write!(f, " --client {client} --id {id} --dialect {dialect}")?;
        self.put_limits(f)?;
        self.put_rest(f)
    }
}
