// Names of the command line that are no peers of a configuration.
ghost use Rattle.std.specs.Prelude.{◌≡◌, IfOk, not, map, option_map};
ghost use Rattle.feed_conf.specs.ConfView.{conf_view};
ghost use Rattle.cli.specs.Strangers.{first_stranger, is_peer, stranger_of};

use feed_conf::Conf;
use feed_ends::{Listing, Scope};
use funnel::PeerName;
use std::alloc::{AllocError, Global};

/// The first name of a list of what is owed that is no peer of these settings. A list of all that waits may have any.
///
/// # Errors
/// Memory was refused.
pub fn stranger_of<'a>(
    alloc: Global,
    conf: &Conf,
    listing: &Listing<'a>,
) -> Result<Option<&'a str>, AllocError>
    ensures { IfOk result (λ name. option_map (λ octets. octets.now) name
        ≡ stranger_of listing.now (conf_view conf.now)) }
{
    match listing.scope {
        Scope::Peers => first_stranger(alloc, conf, &listing.names),
        Scope::All => Ok(None),
    }
}

#[tactic(auto, using(crate::proofs::Finding::first_found))]
fn first_stranger<'a>(
    alloc: Global,
    conf: &Conf,
    names: &[&'a str],
) -> Result<Option<&'a str>, AllocError>
    ensures { IfOk result (λ name. option_map (λ octets. octets.now) name
        ≡ first_stranger (conf_view conf.now) (map (λ octets. octets.now) names.now)) }
{
    for name in names {
        if !is_peer(alloc, conf, name)? {
            return Ok(Some(name));
        }
    }
    Ok(None)
}

// Whether the name is one of a peer of these settings.
fn is_peer(alloc: Global, conf: &Conf, name: &str) -> Result<bool, AllocError>
    ensures { IfOk result (λ found. found ≡ is_peer (conf_view conf.now) name.now) }
{
    match PeerName::read(alloc, name.as_bytes())? {
        Some(name) => Ok(conf.peer(&name).is_some()),
        None => Ok(false),
    }
}
