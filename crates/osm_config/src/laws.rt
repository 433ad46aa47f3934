//! A law of configurations: the contract of a function that does nothing.

ghost use Rattle.std.specs.Prelude.{◌≡◌, ℕ, List, Ok, map};
ghost use Rattle.std.specs.List.{IsDistinct};
ghost use Rattle.std.specs.Str.{bytes_eq};
ghost use Rattle.osm_config.specs.Configs.{ConfigSpec, config_of_text};

/// No two extracts of a configuration have the same output.
pub fn outputs_differ()
    ensures { (text : List ℕ) (config : ConfigSpec) → config_of_text text ≡ Ok config
        → IsDistinct bytes_eq (map (λ e. e.output) config.extracts) }
{}
