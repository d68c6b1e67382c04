//! How the program is used.

/// What `adsd --help` prints.
pub(crate) const HELP: &[u8] = b"\
adsd serves a plant over ADS until it is stopped.

  adsd PLANT.toml [OPTION ..]    serve this description on 127.0.0.1:48898
  adsd CONFIG.toml [OPTION ..]   serve as this configuration says
  adsd check CONFIG.toml         print what a configuration says, check its files and its description, and end
  adsd --help | --version

A configuration is a TOML table with the key description; its other keys are those of the options, and [[signal]] tables:

  --listen ADDRESS    where to listen: 0.0.0.0:48898, [::]:48898, localhost:48898; several times for several
  --store FILE        keep the persistent symbols in this file
  --save-each N       save them at most each N seconds, 1 to 86400; else 10
  --store-damaged W   begin: copy a store that is damaged, and serve without what it lost; else it ends the daemon
  --keep-description B  true: keep each accepted description beside the store, and serve it where a start finds none; else false
  --settle N          take a changed description once it stood unchanged for N seconds, 0 to 3600; else 0
  --allow NET         who may connect, as 192.168.0.0/24 or fd00::1; several times for several; else everybody
  --other-routes R    what each machine without a route may do: read, or write, which is both; else it may not connect
  --profile NAME      wide: answer as TwinCAT does; strict: as ads serve does; else wide
  --status FILE       write counts to this file each 10 s, as Prometheus reads them
  --log FORM          journal, plain or none; else plain
  --stop-file FILE    end once this file is there

Start it with these signals blocked, so that it ends in order, and outlives a file that is too large:
  env --block-signal=TERM,INT,HUP,XFSZ adsd CONFIG.toml
";

/// What `adsd --version` prints.
pub(crate) const VERSION: &[u8] = b"adsd 1.0\n";
