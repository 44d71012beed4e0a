//! What `migrate` prints is said of its input's document, and is that document in version 2.

ghost use Rattle.migrate_form.specs.MigrateLaws.{DocumentsMigrate, MigrationsAreTold};

/// What the machine prints for an input is what is said of its document, and the other way round.
#[tactic(auto, using(crate::proofs::MigrationsTold::migrations_are_told))]
pub fn migrations_are_told()
    ensures { MigrationsAreTold }
{}

/// What is printed of an input of which nothing is refused is a document with the same events, of the model in version 2; a run prints for
/// both the same, and `migrate` prints it again as it is.
#[tactic(auto, using(crate::proofs::MigratedDocuments::documents_migrate))]
pub fn documents_migrate()
    ensures { DocumentsMigrate }
{}
