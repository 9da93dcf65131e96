//! Which clients a service has: those of the command line, or where it names none those of its configuration.
ghost use Rattle.std.specs.Prelude.{◌≡◌, IfOk, map};
ghost use Rattle.qplain.specs.declared.edition.Edition.TheVariants.{Two};
ghost use Rattle.qtext_config.specs.ConfigClients.{named_client};
ghost use Rattle.qtool.specs.Served.{client_of_pair, clients_served};
ghost use Rattle.qtool.specs.Under.{IsConfigNaming};

use crate::ending::Ending;
use crate::reading::configuration;
use crate::{Files, Setup};
use qplain::NoMemory;
use qtext_config::{ClientShare, ConfigClient};
use qtext_job::Pair;
use std::alloc::Global;

/// What a service has of its configuration: the setup, or why there is none, and the clients that are named.
pub(crate) struct ServiceConfig {
    pub(crate) setup: Result<Setup, Ending>,
    pub(crate) clients: Vec<ConfigClient>,
}

/// Reads the configuration of a service. What is wrong with it is told behind what is wrong with names, some of which
/// it may have, so here it is only kept.
pub(crate) fn service_config<F: Files>(alloc: Global, files: &mut F, name: &str) -> ServiceConfig
    ensures config { IfOk result.setup (λ setup.
        IsConfigNaming (F.held files.old) name.now setup (map named_client result.clients.items)) }
    ensures newest { IfOk result.setup (λ setup. setup.edition ≡ Two) }
    ensures same { F.held files.new ≡ F.held files.old }
{
    match configuration(alloc, files, name) {
        Ok(config) => ServiceConfig {
            setup: Ok(config.setup),
            clients: config.clients.into_vec(),
        },
        Err(ending) => ServiceConfig {
            setup: Err(ending.explained(false)),
            clients: Vec::new(alloc),
        },
    }
}

/// The client of a pair, of whose share nothing is said.
fn client_of(alloc: Global, pair: &Pair) -> Result<ConfigClient, NoMemory>
    ensures { IfOk result (λ client. named_client client ≡ client_of_pair pair.now) }
{
    let caller = match &pair.caller {
        Some(caller) => Some(caller.copy()?),
        None => None,
    };
    Ok(ConfigClient {
        caller,
        lines: String::from_str(alloc, pair.input.as_str())?,
        replies: String::from_str(alloc, pair.output.as_str())?,
        share: ClientShare::UNSAID,
    })
}

/// The clients that are served, of those of the command line and of the configuration.
pub(crate) fn served(
    alloc: Global,
    pairs: &[Pair],
    configured: Vec<ConfigClient>,
) -> Result<Vec<ConfigClient>, NoMemory>
    ensures { IfOk result (λ clients. map named_client clients.items
        ≡ clients_served (map client_of_pair pairs.now) (map named_client configured.items)) }
{
    if pairs.is_empty() {
        return Ok(configured);
    }
    let mut clients = Vec::new(alloc);
    for pair in pairs {
        clients.push(client_of(alloc, pair)?)?;
    }
    Ok(clients)
}
