//! What is known of every instance.

ghost use Rattle.cts_instance.specs.Validity.{IsValid};

use cts_instance::Instance;

/// Says that an instance is valid, as each call that reads it does. The limits of what is printed rest on that.
pub fn instance_is_valid(instance: &Instance)
    ensures { IsValid instance.now }
{
    let _die = instance.die();
}
