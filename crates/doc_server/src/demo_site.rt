//! The demonstration site: three readers and three pages.

ghost use Rattle.std.specs.Prelude.{◌≡◌, IfOk, IfErr};
ghost use Rattle.doc_server.specs.DemoSite.{demo_config, demo_world};

use crate::site::site_hub;
use doc_hub::hub::Hub;
use doc_page::renderer::Renderer;
use doc_page_parts::heap::Heap;
use doc_server_config::config::{ConfigError, SiteConfig};
use doc_server_streams::fault::Fault;

/// Its configuration: an owner, a reader of the group `staff` and one of the group `ops`; a page of `staff`, one of `staff` with
/// links, and one of `ops`. The cache keeps 4 documents.
const CONFIG: &str = r#"
cache = 4
reader = [
    { token = "tok-owner", owner = true },
    { token = "tok-ann", groups = ["staff"] },
    { token = "tok-bob", groups = ["ops"] },
]
page = [
    { path = "a.md", groups = ["staff"], text = "Hello\n" },
    { path = "b.md", groups = ["staff"], text = "[c](c.md) [d](d.md)\n" },
    { path = "c.md", groups = ["ops"], text = "See [b](b.md), [b](b.md).\n" },
]
"#;

/// A hub with the demonstration site, which keeps connections alive.
pub fn demo_hub<R: Renderer + Drop>(heap: Heap, renderer: R) -> Result<Hub<R>, Fault>
    ensures world { IfOk result (λ hub. hub.1 ≡ demo_world) }
    ensures same { IfOk result (λ hub. R.page hub.0 ≡ R.page renderer) }
    ensures fault { IfErr result (λ fault. fault ≡ Fault.Memory) }
{
    let config = demo_config(heap)?;
    site_hub(heap, renderer, config, &[])
}

fn demo_config(heap: Heap) -> Result<SiteConfig, Fault>
    ensures made { IfOk result (λ config. config ≡ demo_config) }
    ensures fault { IfErr result (λ fault. fault ≡ Fault.Memory) }
{
    match SiteConfig::from_toml(heap, CONFIG) {
        Ok(config) => Ok(config),
        Err(ConfigError::Memory) => Err(Fault::Memory),
        Err(ConfigError::BadToml) => Err(Fault::Config),
        Err(ConfigError::BadReaders(_)) => Err(Fault::Config),
        Err(ConfigError::BadSetting) => Err(Fault::Config),
        Err(ConfigError::BadPage(_)) => Err(Fault::Config),
    }
}
