//! The replies that are counted: of each host the first one to the request whose result is waited for.

ghost use Rattle.std.specs.Prelude.{◌≡◌, ◌≤◌, length, replicate, None, IfOk};
ghost use Rattle.mb_client.specs.declared.replies.TheConstants.{MAX_HOSTS};
ghost use Rattle.mb_client.specs.Replies.{kept_agrees};

use crate::kept_reply::KeptReply;
use mb_base::{Host, NoMemory, Shape};
use std::alloc::Global;

/// The most hosts of a system, 2f+1 with the greatest f.
const MAX_HOSTS: u8 = 2 * Shape::MAX_F + 1;

/// The counted replies, by host.
#[derive(Drop)]
pub(crate) struct Replies {
    by_host: Vec<Option<KeptReply>>,
    ghost few: { length by_host.items ≤ MAX_HOSTS },
}

impl Replies {
    ghost use Rattle.std.specs.Prelude.{◌≡◌, ◌≤◌, ◌<◌, ℕ, List, [], length, IfOk, count_by};
    ghost use Rattle.mb_msg.specs.declared.normal.Reply.{Reply};
    ghost use Rattle.mb_model.specs.Clients.{agreeing, most_agreeing, counted};
    ghost use Rattle.mb_client.specs.Replies.{RepresentsReplies, has_host, kept_agrees};

    /// None yet. All memory is taken here.
    pub(crate) fn make(alloc: Global, hosts: u8) -> Result<Replies, NoMemory>
        requires { hosts ≤ MAX_HOSTS }
        ensures stands { IfOk result (λ t. RepresentsReplies t.by_host.items []) }
        ensures places { IfOk result (λ t. length t.by_host.items ≡ hosts) }
    {
        Ok(Replies {
            by_host: no_replies(alloc, hosts)?,
        })
    }

    /// Whether a reply of this host is counted.
    pub(crate) fn has(&self, host: Host) -> bool
        requires { host < length self.now.by_host.items }
        ensures { (rs : List Reply) → RepresentsReplies self.now.by_host.items rs → result ≡ has_host rs host }
    {
        self.by_host[usize::from(host)].is_some()
    }

    /// How many counted replies agree with this one.
    pub(crate) fn agreeing(&self, reply: &KeptReply) -> u8
        ensures kept { result ≡ count_by (kept_agrees reply.now) self.now.by_host.items }
        ensures counts { (rs : List Reply) → RepresentsReplies self.now.by_host.items rs → result ≡ agreeing rs reply.now }
    {
        self.by_host
            .iter()
            .filter(|kept| agrees(kept, reply))
            .count() as u8
    }

    /// The greatest number of counted replies that agree.
    pub(crate) fn most_agreeing(&self) -> u8
        ensures { (rs : List Reply) → RepresentsReplies self.now.by_host.items rs → result ≡ most_agreeing rs rs }
    {
        let mut most = 0;
        for kept in &self.by_host {
            most = most.max(kept.as_ref().map_or(0, |reply| self.agreeing(reply)));
        }
        most
    }

    /// Counts a reply, where it is the first of its host.
    pub(crate) fn count(&mut self, reply: KeptReply)
        requires { reply.host < length self.old.by_host.items }
        ensures stands { (rs : List Reply) → RepresentsReplies self.old.by_host.items rs → RepresentsReplies self.new.by_host.items (counted rs reply) }
        ensures places { length self.new.by_host.items ≡ length self.old.by_host.items }
    {
        let kept = &mut self.by_host[usize::from(reply.host())];
        if kept.is_none() {
            *kept = Some(reply);
        }
    }

    /// Counts none any more.
    pub(crate) fn clear(&mut self)
        ensures stands { RepresentsReplies self.new.by_host.items [] }
        ensures places { length self.new.by_host.items ≡ length self.old.by_host.items }
    {
        for kept in self.by_host.iter_mut() {
            *kept = None;
        }
    }
}

fn no_replies(alloc: Global, hosts: u8) -> Result<Vec<Option<KeptReply>>, NoMemory>
    ensures { IfOk result (λ v. v.items ≡ replicate hosts None) }
{
    let mut all = Vec::with_capacity(alloc, usize::from(hosts))?;
    for _ in 0..hosts {
        all.push(None)?;
    }
    Ok(all)
}

/// Whether a host's counted reply agrees with this one: it has the same position and result.
fn agrees(kept: &Option<KeptReply>, reply: &KeptReply) -> bool
    ensures { result ≡ kept_agrees reply.now kept.now }
{
    match kept {
        Some(kept) => reply.agrees(kept),
        None => false,
    }
}
